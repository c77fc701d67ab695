//! What the program reads: what it is handed, which is standard input, or a file that it opens by name.
ghost use Rattle.std.specs.Prelude.{◌≡◌, true, IfOk, List, ℕ, option_map};
ghost use Rattle.timer_journal.specs.Device.{Only};
ghost use Rattle.timer_program.specs.Files.{IsToOpen, remaining_of};

use std::fs::File;
use std::io;
use std::io::{ErrorKind, IsTerminal, Read, Write};
use timer_journal::{Device, HostFile, OpenFault, open_host};

/// Opens files by name. `command` is generic over it, so its contract says which name was opened.
pub trait Opener<O> {
    /// The file was opened under this name.
    ghost is_opened: { List ℕ → O → Type 0 };

    /// Opens a file in order to read it from its start.
    fn open_to_read(&self, name: &str) -> io::Result<O>
        ensures { IfOk result (λ file. is_opened name.now file) };
}

impl Opener<File> for HostRuntime {
    // No contract of the system's says what a file has.
    ghost is_opened = { λ _ _. Unit {0} };

    fn open_to_read(&self, name: &str) -> io::Result<File> {
        let mut file = File::open(self, name)?;
        // A directory can be opened. The first read of one fails, and this one takes no byte of another file.
        file.read(&mut [])?;
        Ok(file)
    }
}

/// Opens journals by name.
pub trait Journals<J: Device> {
    /// The journal was opened under this name.
    ghost is_journal: { List ℕ → J → Type 0 };

    /// Opens a journal's file, or makes an empty one.
    fn open_journal(&self, name: &str) -> Result<J, OpenFault>
        ensures opened { IfOk result (λ journal. is_journal name.now journal) }
        // What is read of it is what is on the disk.
        ensures durable { IfOk result (λ journal. Only (J.seen journal) (J.may_leave journal)) }
        ensures usable { IfOk result (λ journal. J.is_usable journal ≡ true) };
}

impl Journals<HostFile> for HostRuntime {
    ghost is_journal = { λ _ _. Unit {0} };

    fn open_journal(&self, name: &str) -> Result<HostFile, OpenFault> {
        open_host(self, name)
    }
}

/// Standard input. Before the first read at a terminal, a note says what is awaited.
#[derive(Drop)]
pub struct Prompted<R, N> {
    input: R,
    notes: N,
    /// Nothing was read yet.
    is_first: bool,
}

impl<R, N> Prompted<R, N> {
    /// An input of which nothing was read yet.
    pub fn new(input: R, notes: N) -> Prompted<R, N> {
        Prompted {
            input,
            notes,
            is_first: true,
        }
    }
}

impl<R: Read + IsTerminal, N: Write> Read for Prompted<R, N> {
    ghost remaining = { λ prompted. R.remaining prompted.input };

    fn read(&mut self, buf: &mut [u8]) -> io::Result<usize> {
        if self.is_first && self.input.is_terminal() {
            let _ = writeln!(
                self.notes,
                "timers: lines are read from the terminal; Ctrl-D ends them"
            );
        }
        self.is_first = false;
        self.input.read(buf)
    }
}

/// What a subcommand reads.
#[derive(Drop)]
pub enum Source<R, O> {
    /// What the program was handed.
    Given(R),
    /// A file that it opened.
    Opened(O),
    /// The file was taken away, to be read again.
    Nothing,
}

impl<R: Read, O: Read> Read for Source<R, O> {
    ghost remaining = { λ source. remaining_of R.remaining O.remaining source };

    fn read(&mut self, buf: &mut [u8]) -> io::Result<usize> {
        match self {
            Source::Given(given) => given.read(buf),
            Source::Opened(file) => file.read(buf),
            Source::Nothing => Ok(0),
        }
    }
}

/// The file that is to be opened: none if none is named, or `-`.
pub fn file_to_open<'a>(file: Option<&'a str>) -> Option<&'a str>
    ensures { IsToOpen (option_map (λ n. n.now) file.entry) (option_map (λ n. n.now) result) }
{
    match file {
        None | Some("-") => None,
        Some(name) => Some(name),
    }
}

/// Why a file can't be opened, as it is shown.
pub fn reason_to_refuse(kind: ErrorKind) -> &'static str {
    match kind {
        ErrorKind::NotFound => "No such file or directory",
        ErrorKind::PermissionDenied => "Permission denied",
        ErrorKind::IsADirectory => "Is a directory",
        ErrorKind::NotADirectory => "Not a directory",
        ErrorKind::FilesystemLoop => "Too many levels of symbolic links",
        ErrorKind::InvalidFilename => "File name too long",
        ErrorKind::OutOfMemory => "out of memory",
        _ => "can't be read",
    }
}
