//! What a task reads from: an open file, standard input, or the error of a file that couldn't be
//! opened. Also `Open`, the trait through which `running.rt` opens files, and `Host`, which
//! implements it with host calls.

ghost use Rattle.std.specs.Prelude.{◌≡◌, ◌↔◌, IfOk, IsTrue, IsErr, MatchResult};
ghost use Rattle.std.specs.Io.{ReadsAtMost};
ghost use Rattle.std.specs.Io.KnownBytes.{ReadConsumes};
ghost use Rattle.tsp_tool.specs.declared.job.InputPath.{InputPath};
ghost use Rattle.tsp_tool.specs.Beside.{IsBesideStreams, IsBeside};
ghost use Rattle.tsp_tool.specs.states.InputFile.{remaining_of, is_missing, IsAskedOnce, IsInputFileOf, GivesOnce, IsSameError};

use crate::job::InputPath;
use std::fs::{self, File};
use std::io::{self, ErrorKind, Read};
use std::os::fd::AsRawFd;
use std::rt::Stdin;
use tsp_io::Gives;

/// Opens files. [`Host`] implements it with host calls.
pub trait Open<F> {
    /// Whether opening the file at a place may give this reader.
    ghost opens: { Self → InputPath → F → Type 0 };

    /// Opens the file at a place.
    fn open(&self, place: InputPath<'_>) -> F
        ensures { opens self.now place.entry result };

    /// Opens the file at a path once more; `None` if it can't be read twice.
    fn open_again(&self, path: &str) -> Option<F>;
}

/// Standard input, an open file, or the error of a file that couldn't be opened. Each read of a
/// missing file fails with its error, so the task reports it when it comes to that file.
#[derive(Drop)]
pub enum InputFile<I, F> {
    Input(I),
    Opened(F),
    Missing(io::Error),
}

impl<I, F> InputFile<I, F> {
    /// The reader for the result of opening a file.
    pub fn of(opened: io::Result<F>) -> InputFile<I, F>
        ensures { MatchResult opened (λ file. result ≡ InputFile.Opened file) (λ error. result ≡ InputFile.Missing error) }
    {
        match opened {
            Ok(file) => InputFile::Opened(file),
            Err(error) => InputFile::Missing(error),
        }
    }
}

impl<I, F> InputFile<I, F> {
    /// Asks standard input or the file once, with a buffer for its bytes, and returns the result
    /// unchanged. If the file is missing, returns its error without asking anything.
    fn ask<A, OfInput, OfFile>(
        &mut self,
        room: &mut [u8],
        of_input: OfInput,
        of_file: OfFile,
    ) -> io::Result<A>
    where
        OfInput: FnOnce(&mut I, &mut [u8]) -> io::Result<A> + Drop,
        OfFile: FnOnce(&mut F, &mut [u8]) -> io::Result<A> + Drop,
        requires input { OfInput.IsAlwaysCallable of_input }
        requires file { OfFile.IsAlwaysCallable of_file }
        ensures asked { IsAskedOnce OfInput.FnOnce of_input OfFile.FnOnce of_file self.old room.old result self.new room.new }
    {
        match self {
            InputFile::Input(input) => of_input(input, room),
            InputFile::Opened(file) => of_file(file, room),
            InputFile::Missing(error) => Err(same_error(error)),
        }
    }
}

impl<I: Gives, F: Gives> Read for InputFile<I, F> {
    ghost remaining = { remaining_of I.remaining F.remaining };

    fn read(&mut self, buf: &mut [u8]) -> io::Result<usize>
        ensures bound { ReadsAtMost result buf.new }
        ensures bytes { ReadConsumes (remaining_of I.remaining F.remaining self.old)
            (remaining_of I.remaining F.remaining self.new) result buf.new }
        ensures once { GivesOnce I.gives F.gives self.old buf.old result buf.new self.new }
        ensures missing { IsTrue (is_missing self.old) → IsErr result }
    {
        self.ask(
            buf,
            |input, room| input.give(room),
            |file, room| file.give(room),
        )
    }
}

/// A copy of an error: with the same system number, or, if it has none, of the same kind.
fn same_error(error: &io::Error) -> io::Error
    ensures { IsSameError error.now result }
{
    match error.raw_os_error() {
        Some(code) => io::Error::from_raw_os_error(code),
        None => io::Error::from(error.kind()),
    }
}

// ---- the host, which opens files

/// The files and the standard input of the host.
#[derive(Drop)]
pub(crate) struct Host<'a> {
    pub(crate) rt: &'a HostRuntime,
}

impl Open<InputFile<Stdin, File>> for Host<'_> {
    ghost opens = { λ host place file. IsInputFileOf place file × IsBeside file };

    fn open(&self, place: InputPath<'_>) -> InputFile<Stdin, File> {
        match place {
            InputPath::Input => InputFile::Input(self.rt.stdin()),
            InputPath::Path(path) => InputFile::of(opened(self.rt, path)),
        }
    }

    /// A pipe or a device gives its bytes only once, and opening one could wait for ever.
    fn open_again(&self, path: &str) -> Option<InputFile<Stdin, File>> {
        match fs::metadata(self.rt, path) {
            Ok(found) if found.is_file() || found.is_dir() => {
                Some(InputFile::of(opened(self.rt, path)))
            }
            Ok(_) => None,
            Err(error) => Some(InputFile::Missing(error)),
        }
    }
}

/// Opens the file at a path, with a descriptor that isn't a standard stream's.
///
/// If a standard stream was closed before the program started, the system gives its number to the
/// next file, which would then be read as standard input.
fn opened(rt: &HostRuntime, path: &str) -> io::Result<File>
    ensures { IfOk result IsBesideStreams }
{
    let file = fs::open(rt, path)?;
    if is_beside_streams(&file) {
        return Ok(file);
    }
    let copy = file.try_clone()?;
    if is_beside_streams(&copy) {
        return Ok(copy);
    }
    Err(io::Error::from(ErrorKind::Unsupported))
}

/// Whether the file's descriptor is above those of the standard streams, 0 to 2.
fn is_beside_streams(file: &File) -> bool
    ensures { IsTrue result ↔ IsBesideStreams file.now }
{
    file.as_raw_fd() > 2
}
