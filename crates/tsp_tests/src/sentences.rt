//! A test of the sentences for out of memory. (The others are in cases and rows of the built
//! program.)

use crate::asserts::same;
use std::alloc::AllocError;
use tsp_explain::{explain_file, relayout_sentence, write_sentence};
use tsp_file::RelayoutFault;
use tsp_io::WriteFault;
use tsp_text::ReadFault;

#[test]
fn out_of_memory_has_its_sentences(rt: HostRuntime) -> Result<(), AllocError> {
    let mut text = Vec::new(rt.alloc());
    let again: Option<&[u8]> = None;
    let fault = ReadFault::OutOfMemory;
    explain_file(rt.alloc(), &mut text, "a.tsp", None, again, fault)?;
    same(
        &rt,
        text.as_slice(),
        b"a.tsp: out of memory\n  There isn't enough memory for the file's contents.\n".as_slice(),
    );
    same(
        &rt,
        relayout_sentence(RelayoutFault::OutOfMemory),
        "There isn't enough memory for the weights in the new layout.",
    );
    same(
        &rt,
        write_sentence(WriteFault::OutOfMemory),
        "There isn't enough memory for the text.",
    );
    Ok(())
}
