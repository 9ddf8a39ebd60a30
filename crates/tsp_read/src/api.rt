//! The calls of this crate: read a file from bytes in memory, from a reader, or from pieces.
//! tsp_judge and tsp_c call them. `Reads`, `ReadsFrom` and `Feeds` in `specs/Reads.antt` pin what
//! each returns and how many bytes it takes.

ghost use Rattle.std.specs.Prelude.{◌≡◌, Err, false, []};
ghost use Rattle.tsp_io.specs.states.Watched.{read_trace_of, has_failed};
ghost use Rattle.tsp_text.specs.declared.fault.ReadFault.TheVariants.{OutOfMemory};
ghost use Rattle.tsp_read.specs.Reads.{IsReadOn, HasTaken, Reads, ReadsFrom, ReadsInTime, FeedsAll};
ghost use Rattle.tsp_read.specs.states.Onward.{is_bare};

use crate::feed::Feed;
use crate::reading::ReadError;
use std::alloc::Global;
use std::io::Read;
use tsp_file::File;
use tsp_format::MOST_FILE_BYTES;
use tsp_io::{Gives, Watched};
use tsp_text::ReadFault;

/// Reads a file from the bytes of a text.
///
/// # Errors
///
/// - `Line`: the first line with a fault, and in a number line the first word with one.
/// - `TooLong`: there are more bytes than a file may have, and so far neither a fault nor an EOF
///   line.
/// - `End`: no line has a fault, but the lines together aren't a valid file.
/// - `OutOfMemory`: memory ran out. This can replace any other answer, except for a text of only
///   blanks and bytes 10.
pub fn read_bytes(alloc: Global, bytes: &[u8]) -> Result<File, ReadFault>
    ensures answer { Reads bytes.now result }
    ensures memory { result ≡ Err OutOfMemory → is_bare bytes.now ≡ false }
{
    Ok(file_of_bytes(alloc, bytes)?)
}

/// Reads a file from a reader, in pieces of at most 4,096 bytes, until the reader ends, an EOF line
/// or a fault is found, or the limit on the bytes of a file is exceeded.
///
/// The answer is that of `read_bytes` for the bytes that the reader delivered, and also for all
/// bytes that it has. At most 4,096 bytes are taken past 1,073,741,824, past an EOF line, or past a
/// settled fault. A reader that had failed before isn't read. The reader fails only if a read
/// returns an error, and that read is the last one.
///
/// # Errors
///
/// - `Line`, `End` and `TooLong`: as `read_bytes` says.
/// - `Device`: a read failed, or had failed before.
/// - `OutOfMemory`: memory ran out. This can replace any answer except `Device`, if the reader
///   delivered more than blanks and bytes 10.
pub fn read_from<R: Gives>(alloc: Global, reader: &mut Watched<R>) -> Result<File, ReadFault>
    ensures answer { ReadsFrom (read_trace_of R.remaining reader.old reader.new) result }
    ensures asked { IsReadOn R.gives reader.old reader.new }
    ensures in_time { ReadsInTime (read_trace_of R.remaining reader.old reader.new) result }
{
    Ok(file_of_reader(alloc, reader)?)
}

impl Feed {
    ghost use Rattle.tsp_read.specs.Prelude.{List, ℕ, Some, None, Ok, Err, IfErr, true, false, ReadFault, has_end_line, settled_part, settled_fault};
    ghost use Rattle.std.specs.Prelude.{◌≡◌, ◌≢◌, ◌++◌};
    ghost use Rattle.tsp_text.specs.declared.fault.ReadFault.TheVariants.{OutOfMemory};
    ghost use Rattle.tsp_read.specs.states.Onward.{is_bare};
    ghost use Rattle.tsp_read.specs.Reads.{Reads};
    ghost use Rattle.tsp_read.specs.Reads.{HasTaken, refusal, Feeds};

    /// Takes the next piece. After an EOF line, every piece is taken without looking at it.
    ///
    /// # Errors
    ///
    /// After a refusal every later call returns the same fault, and takes no bytes.
    ///
    /// - `Line`: a line or a word that is complete, or already too long, has the first fault.
    /// - `TooLong`: there are more bytes than a file may have, and so far neither a fault nor an
    ///   EOF line.
    /// - `OutOfMemory`: memory ran out.
    pub fn feed(&mut self, piece: &[u8]) -> Result<(), ReadFault>
        ensures taken { (bytes : List ℕ) → HasTaken self.old bytes
            → Feeds (bytes ++ piece.now) self.new result }
        ensures again { (found : ReadFault) → refusal self.old ≡ Some found
            → (result ≡ Err found) × (refusal self.new ≡ Some found) }
        ensures refused { IfErr result (λ found. refusal self.new ≡ Some found) }
        ensures ended { (bytes : List ℕ) → HasTaken self.old bytes → settled_fault bytes ≡ None
            → has_end_line (settled_part bytes) ≡ true → result ≡ Ok tt }
    {
        Ok(self.take(piece)?)
    }

    /// Ends the text, and returns the file that its bytes parse to.
    ///
    /// # Errors
    ///
    /// A refusal by `feed` is returned again. Otherwise:
    ///
    /// - `Line`: the last line, or its last word, has the first fault.
    /// - `End`: no line has a fault, but the lines together aren't a valid file.
    /// - `OutOfMemory`: memory ran out. After a settled line EOF no memory is needed.
    pub fn finish(self) -> Result<File, ReadFault>
        ensures read { (bytes : List ℕ) → HasTaken self bytes → Reads bytes result }
        ensures memory { (bytes : List ℕ) → HasTaken self bytes → result ≡ Err OutOfMemory
            → is_bare bytes ≡ false }
        ensures again { (found : ReadFault) → refusal self ≡ Some found → result ≡ Err found }
        ensures ended { (bytes : List ℕ) → HasTaken self bytes → settled_fault bytes ≡ None
            → has_end_line (settled_part bytes) ≡ true → result ≢ Err OutOfMemory }
    {
        Ok(self.into_file()?)
    }
}

// ---- read a whole text, or a reader to its end

/// Like [`read_bytes`], but returns a `ReadError`.
///
/// # Errors
///
/// Those of `read_bytes`.
pub fn file_of_bytes(alloc: Global, bytes: &[u8]) -> Result<File, ReadError>
    ensures answer { Reads bytes.now result }
    ensures memory { result ≡ Err OutOfMemory → is_bare bytes.now ≡ false }
{
    let mut feed = Feed::new(alloc);
    match feed.take(bytes) {
        Ok(()) => feed.into_file(),
        Err(fault) => {
            drop(feed);
            Err(fault)
        }
    }
}

/// Like [`read_from`], but returns a `ReadError`.
///
/// # Errors
///
/// Those of `read_from`.
pub fn file_of_reader<R: Gives>(alloc: Global, reader: &mut Watched<R>) -> Result<File, ReadError>
    ensures answer { ReadsFrom (read_trace_of R.remaining reader.old reader.new) result }
    ensures asked { IsReadOn R.gives reader.old reader.new }
    ensures in_time { ReadsInTime (read_trace_of R.remaining reader.old reader.new) result }
{
    if reader.failed() {
        return Err(ReadError::by_device());
    }
    let mut feed = Feed::new(alloc);
    match feed_all(&mut feed, reader) {
        Ok(()) => feed.into_file(),
        Err(fault) => {
            drop(feed);
            Err(fault)
        }
    }
}

// ---- read a reader in pieces of 4,096 bytes, and feed them to a `Feed`

/// The size of a piece: the most bytes that a reader is asked for at once.
const MOST_AT_ONCE: usize = 4_096;

/// Feeds the bytes of a reader until it ends, an EOF line or a fault is found, or the limit on the
/// bytes of a file is exceeded.
fn feed_all<R: Gives>(feed: &mut Feed, reader: &mut Watched<R>) -> Result<(), ReadError>
    requires start { HasTaken feed.old [] }
    requires sound { has_failed reader.old ≡ false }
    ensures fed { FeedsAll (read_trace_of R.remaining reader.old reader.new) feed.new result }
    ensures asked { IsReadOn R.gives reader.old reader.new }
{
    let mut taken = 0usize;
    let mut piece = [0u8; MOST_AT_ONCE];
    'pieces: while taken <= MOST_FILE_BYTES {
        if !feed.may_go_on() {
            return Ok(());
        }
        let Ok(count) = reader.read(&mut piece) else {
            return Err(ReadError::by_device());
        };
        if count == 0 {
            return Ok(());
        }
        feed.take(&piece[..count])?;
        taken += count;
    }
    Ok(())
}
