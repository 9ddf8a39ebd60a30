//! `Feed` takes a file in pieces of any size, and reports a fault as soon as no later byte can
//! change it. `api.rt` offers it. It only decides whether reading goes on (`Stage`); `items.rt`
//! cuts lines and words. `HasTaken` in `specs/Reads.antt` pins its state after each piece.

ghost use Rattle.tsp_read.specs.Prelude.{[], List, ℕ, length, Ok, true, false, most_file_bytes, is_not_empty};
ghost use Rattle.std.specs.Prelude.{◌≡◌, ◌+◌, ◌≤◌, ◌++◌};
ghost use Rattle.tsp_read.specs.states.Onward.{IsFedTo, most_lines, most_words, KeepRoom, FeedsOn, HasRoom, HasBytes, stage_after, outcome_of};

use crate::items::{Begun, Intake};
use crate::reading::{ReadError, Reading, completed};
use std::alloc::Global;
use tsp_file::File;
use tsp_format::MOST_FILE_BYTES;

/// Reads a piece that is within the limit on the bytes of a file. An item that the piece's end cuts
/// is kept for the next piece. Returns whether the EOF line was found.
fn read_on(
    intake: &mut Intake,
    begun: &mut Begun,
    alloc: Global,
    piece: &[u8],
) -> Result<bool, ReadError>
    requires lines { most_lines intake.old begun.old (length piece.now) ≤ most_file_bytes + 1 }
    requires words { most_words intake.old begun.old (length piece.now) ≤ most_file_bytes }
    ensures read { (bytes : List ℕ) → IsFedTo intake.old begun.old bytes piece.now
        → FeedsOn bytes intake.new begun.new result }
    ensures room { result ≡ Ok false
        → KeepRoom intake.old begun.old (length piece.now) intake.new begun.new 0 }
{
    let Some(rest) = begun.join(intake, alloc, piece)? else {
        return Ok(true);
    };
    if rest.is_empty() {
        return Ok(false);
    }
    match intake.take_items(alloc, rest) {
        Err(fault) => Err(fault),
        Ok(None) => Ok(true),
        Ok(Some(left)) => {
            begun.keep(left, intake.inside);
            Ok(false)
        }
    }
}

/// At most this many bytes from the front of a text, and the rest.
fn split_at_most(text: &[u8], most: usize) -> (&[u8], &[u8])
    ensures parts { text.now ≡ result.0.now ++ result.1.now }
    ensures front { length result.0.now ≤ most }
    ensures over { is_not_empty result.1.now ≡ true → length result.0.now ≡ most }
{
    if text.len() > most {
        text.split_at(most)
    } else {
        text.split_at(text.len())
    }
}

/// The stage after a piece, from the result of reading it.
fn stage_after(all: bool, read: Result<bool, ReadError>) -> Stage
    ensures { result ≡ stage_after all read }
{
    match read {
        Ok(true) => Stage::Ended,
        Ok(false) if all => Stage::Going,
        Ok(false) => Stage::Refused(ReadError::too_long()),
        Err(fault) => Stage::Refused(fault),
    }
}

/// The answer at a stage.
fn outcome(stage: Stage) -> Result<(), ReadError>
    ensures { result ≡ outcome_of stage }
{
    match stage {
        Stage::Going | Stage::Ended => Ok(()),
        Stage::Refused(fault) => Err(fault),
    }
}

/// A file that is read in pieces, wherever they are cut.
///
/// It keeps only the bytes of a line or word whose end hasn't come yet, at most 4,096.
///
/// ```text
/// let mut feed = Feed::new(alloc);
/// for piece in pieces {
///     feed.feed(piece)?;
/// }
/// let file = feed.finish()?;
/// ```
pub struct Feed {
    alloc: Global,
    intake: Intake,
    begun: Begun,
    /// How many bytes have come, up to the most that a file may have.
    count: usize,
    stage: Stage,
    ghost short: { count ≤ most_file_bytes },
    ghost room: { HasRoom stage intake begun count },
    ghost read: { ∥ HasBytes stage intake begun count ∥₁ },
}

/// Drops each field, as a derive would. Functions that drop a feed call this function, because that
/// makes their proofs faster.
impl Drop for Feed {
    fn drop(self) {
        let Feed {
            alloc: _,
            intake: _,
            begun: _,
            count: _,
            stage: _,
        } = self;
    }
}

impl Feed {
    ghost use Rattle.tsp_read.specs.Prelude.{Some, None, Err, IfOk, IfErr, ReadFault, has_end_line, settled_part, settled_fault};
    ghost use Rattle.std.specs.Prelude.{◌≢◌};
    ghost use Rattle.tsp_read.specs.declared.feed.Stage.TheVariants.{Going};
    ghost use Rattle.tsp_text.specs.declared.fault.ReadFault.TheVariants.{OutOfMemory};
    ghost use Rattle.tsp_read.specs.states.Holds.{IsReadFrom};
    ghost use Rattle.tsp_read.specs.states.Onward.{is_bare};
    ghost use Rattle.tsp_read.specs.Reads.{Reads};
    ghost use Rattle.tsp_read.specs.Reads.{may_go_on};
    ghost use Rattle.tsp_read.specs.Reads.{IsGoing, HasTaken, refusal, Feeds, ComesTo, EndsReading, EndsClosed};

    /// A feed that has taken nothing yet. No memory is taken.
    pub fn new(alloc: Global) -> Feed
        ensures { HasTaken result [] }
    {
        Feed {
            alloc,
            intake: Intake::new(alloc),
            begun: Begun::new(),
            count: 0,
            stage: Stage::Going,
        }
    }

    /// Goes on with a piece, up to the limit on the bytes of a file.
    fn go_on(&mut self, piece: &[u8])
        requires { self.old.stage ≡ Going }
        ensures { (bytes : List ℕ) → IsGoing self.old bytes
            → ComesTo self.new.stage self.new (bytes ++ piece.now) }
    {
        let (front, over) = split_at_most(piece, MOST_FILE_BYTES - self.count);
        let read = read_on(&mut self.intake, &mut self.begun, self.alloc, front);
        self.count += front.len();
        self.stage = stage_after(over.is_empty(), read);
    }

    /// Whether the next piece will be looked at.
    pub(crate) fn may_go_on(&self) -> bool
        ensures { result ≡ may_go_on self.now.stage }
    {
        matches!(self.stage, Stage::Going)
    }

    /// Like [`feed`](Feed::feed), but returns a `ReadError`.
    ///
    /// # Errors
    ///
    /// Those of `feed`.
    pub(crate) fn take(&mut self, piece: &[u8]) -> Result<(), ReadError>
        ensures taken { (bytes : List ℕ) → HasTaken self.old bytes
            → Feeds (bytes ++ piece.now) self.new result }
        ensures again { (found : ReadFault) → refusal self.old ≡ Some found
            → (result ≡ Err found) × (refusal self.new ≡ Some found) }
        ensures refused { IfErr result (λ found. refusal self.new ≡ Some found) }
        ensures ended { (bytes : List ℕ) → HasTaken self.old bytes → settled_fault bytes ≡ None
            → has_end_line (settled_part bytes) ≡ true → result ≡ Ok tt }
    {
        let reached = self.stage;
        match reached {
            Stage::Refused(fault) => Err(fault),
            Stage::Ended => Ok(()),
            Stage::Going => {
                self.go_on(piece);
                outcome(self.stage)
            }
        }
    }

    /// All that was read, with the line or word that has begun taken as the last one.
    fn end(self) -> Result<Reading, ReadError>
        ensures ends { (bytes : List ℕ) → HasTaken self bytes → EndsReading bytes result }
        ensures again { (found : ReadFault) → refusal self ≡ Some found → result ≡ Err found }
        ensures ended { (bytes : List ℕ) → HasTaken self bytes → settled_fault bytes ≡ None
            → has_end_line (settled_part bytes) ≡ true → EndsClosed result }
        ensures real { IfOk result (λ reading. IsReadFrom reading) }
    {
        let Feed {
            alloc,
            mut intake,
            begun,
            count: _,
            stage,
        } = self;
        match stage {
            Stage::Refused(fault) => {
                drop(intake);
                Err(fault)
            }
            Stage::Ended => Ok(intake.into_reading()),
            Stage::Going => match begun.take_last(&mut intake, alloc) {
                Ok(_) => Ok(intake.into_reading()),
                Err(fault) => {
                    drop(intake);
                    Err(fault)
                }
            },
        }
    }

    /// Like `finish`, but returns a `ReadError`.
    ///
    /// # Errors
    ///
    /// Those of `finish`.
    pub(crate) fn into_file(self) -> Result<File, ReadError>
        ensures read { (bytes : List ℕ) → HasTaken self bytes → Reads bytes result }
        ensures memory { (bytes : List ℕ) → HasTaken self bytes → result ≡ Err OutOfMemory
            → is_bare bytes ≡ false }
        ensures again { (found : ReadFault) → refusal self ≡ Some found → result ≡ Err found }
        ensures ended { (bytes : List ℕ) → HasTaken self bytes → settled_fault bytes ≡ None
            → has_end_line (settled_part bytes) ≡ true → result ≢ Err OutOfMemory }
    {
        let alloc = self.alloc;
        let reading = self.end()?;
        completed(reading, alloc)
    }
}

// ---- how far a text has come

/// How far a text has come: it goes on, its EOF line was found, or it was refused.
#[derive(Clone, Copy)]
pub(crate) enum Stage {
    Going,
    Ended,
    Refused(ReadError),
}
