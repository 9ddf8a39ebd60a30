//! What a reading returns, as the canonical text of its file or its fault. The tests in this folder
//! compare these.

use crate::asserts::{same, same_at};
use crate::devices::Drip;
use std::alloc::{AllocError, Global};
use std::fmt::Debug;
use std::io::Read;
use std::process::Abort;
use tsp_file::{File, write_file};
use tsp_io::{Output, Watched};
use tsp_read::{Feed, ReadFault, read_bytes, read_from};

/// What a reading returns: a writer that holds the canonical text of its file, or its fault.
pub(crate) type Answer = Result<Drip, ReadFault>;

/// Asserts an answer: the canonical text of the file, or the fault.
pub(crate) fn answers(
    rt: &impl Abort,
    row: impl Debug + Drop,
    found: &Answer,
    wanted: &Result<&str, ReadFault>,
) {
    let found = match found {
        Ok(writer) => Ok(writer.held()),
        Err(fault) => Err(*fault),
    };
    let wanted = match wanted {
        Ok(text) => Ok(text.as_bytes()),
        Err(fault) => Err(*fault),
    };
    same_at(rt, row, found, wanted);
}

/// The answer of a reading.
pub(crate) fn answer(rt: &(impl AllocGlobal + Abort), read: Result<File, ReadFault>) -> Answer {
    match read {
        Ok(file) => Ok(written(rt, &file)),
        Err(fault) => Err(fault),
    }
}

/// A writer that took a file.
fn written(rt: &(impl AllocGlobal + Abort), file: &File) -> Drip {
    let mut out = Output::new(Drip::sound(rt.alloc()));
    same(rt, write_file(rt.alloc(), file, &mut out), Ok(()));
    out.into_inner()
}

/// The answer for a text as a whole.
pub(crate) fn answer_of(rt: &(impl AllocGlobal + Abort), text: &[u8]) -> Answer {
    answer(rt, read_bytes(rt.alloc(), text))
}

/// The answer for a text from a reader.
pub(crate) fn answer_from<R: Read>(
    rt: &(impl AllocGlobal + Abort),
    reader: &mut Watched<R>,
) -> Answer {
    answer(rt, read_from(rt.alloc(), reader))
}

/// The result for a piece. (It has no contract, which the proofs of the tests would go through; nor
/// has the next one.)
pub(crate) fn fed(feed: &mut Feed, piece: &[u8]) -> Result<(), ReadFault> {
    feed.feed(piece)
}

/// The fault at the end of the pieces, if there is one.
pub(crate) fn fault_at_end(feed: Feed) -> Option<ReadFault> {
    feed.finish().err()
}

/// The result for pieces, up to the first refusal.
pub(crate) fn feed_all(feed: &mut Feed, pieces: &[&[u8]]) -> Result<(), ReadFault> {
    for piece in pieces {
        fed(feed, piece)?;
    }
    Ok(())
}

/// The answer for a text in these pieces: the first refusal, or what the end says.
pub(crate) fn answer_in(rt: &(impl AllocGlobal + Abort), pieces: &[&[u8]]) -> Answer {
    let mut feed = Feed::new(rt.alloc());
    match feed_all(&mut feed, pieces) {
        Ok(()) => answer(rt, feed.finish()),
        Err(fault) => Err(fault),
    }
}

/// A file of tours in more than 4,096 bytes, with its canonical text.
pub(crate) fn long_file(alloc: Global) -> Result<(String, String), AllocError> {
    let words = "1 22 \t 333\r\n 4444 -1\n".repeat(alloc, 300)?;
    let lines = "1\n22\n333\n4444\n-1\n".repeat(alloc, 300)?;
    let text = format!(in alloc; "NAME: x\r\nTYPE: TOUR\r\nTOUR_SECTION\r\n{words}")?;
    let canonical = format!(in alloc; "NAME : x\nTYPE : TOUR\nTOUR_SECTION\n{lines}EOF\n")?;
    Ok((text, canonical))
}
