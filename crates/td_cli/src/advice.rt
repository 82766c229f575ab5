//! Whether hints are wanted, why a file can't be read or written, and whether it is there, as far
//! as the system says.

use std::fs::Metadata;
use std::io::ErrorKind;
use std::path::Path;
use std::{fs, io, rt};

/// Who says whether hints are wanted, why a file can't be read or written, and whether it is there.
pub trait Advice {
    /// Whether a hint follows a refusal. The words of the command line ask for hints, or don't.
    fn is_wanted(&self, asked: bool) -> bool;

    /// Why a file of this name can't be read, where that is known.
    fn unreadable(&self, name: &str) -> Option<&'static [u8]>;

    /// Why no file of this name can be written, where that is known.
    fn unwritable(&self, name: &str) -> Option<&'static [u8]>;

    /// Whether a file of this name is known to be there.
    fn is_there(&self, name: &str) -> bool;
}

/// No hints, and no file.
#[derive(Clone, Copy, Drop)]
pub struct NoAdvice;

impl Advice for NoAdvice {
    fn is_wanted(&self, _asked: bool) -> bool {
        false
    }

    fn unreadable(&self, _name: &str) -> Option<&'static [u8]> {
        None
    }

    fn unwritable(&self, _name: &str) -> Option<&'static [u8]> {
        None
    }

    fn is_there(&self, _name: &str) -> bool {
        false
    }
}

/// The system that a runtime stands for, and whether hints are wanted whatever the words say.
#[derive(Drop)]
pub struct System<'r, R> {
    rt: &'r R,
    hints: bool,
}

impl<'r, R> System<'r, R> {
    /// The system of this runtime.
    pub fn new(rt: &'r R, hints: bool) -> Self {
        System { rt, hints }
    }
}

/// The folder of a name, where the name says one.
fn folder(name: &str) -> Option<&str> {
    let path = Path::new(name);
    let parent = path.parent()?;
    match parent.as_str() {
        "" => None,
        folder => Some(folder),
    }
}

/// Why a folder of which this is known can't hold a file, where that is known.
fn unfit(known: io::Result<Metadata>) -> Option<&'static [u8]> {
    match known {
        Ok(known) if known.is_dir() => None,
        Ok(_file) => Some(b"its folder is a file"),
        Err(error) if error.kind() == ErrorKind::NotFound => Some(b"there is no such folder"),
        Err(error) => Some(sentence(error.kind())),
    }
}

/// Whether a file that is read under this name is standard input.
fn is_input(name: &str) -> bool {
    name == "stdin" || name == "-"
}

impl<'r, R: rt::Files> Advice for System<'r, R> {
    fn is_wanted(&self, asked: bool) -> bool {
        asked || self.hints
    }

    fn unreadable(&self, name: &str) -> Option<&'static [u8]> {
        if is_input(name) {
            return None;
        }
        match fs::metadata(self.rt, name) {
            Ok(known) if known.is_dir() => Some(b"it is a folder"),
            Ok(known) if known.is_file() => match fs::open(self.rt, name) {
                Ok(_file) => None,
                Err(error) => Some(sentence(error.kind())),
            },
            Ok(_device) => None,
            Err(error) => Some(sentence(error.kind())),
        }
    }

    fn unwritable(&self, name: &str) -> Option<&'static [u8]> {
        match fs::metadata(self.rt, name) {
            Ok(known) if known.is_dir() => Some(b"it is a folder"),
            Ok(_known) => None,
            Err(error) if error.kind() == ErrorKind::NotFound => {
                unfit(fs::metadata(self.rt, folder(name)?))
            }
            Err(error) => Some(sentence(error.kind())),
        }
    }

    fn is_there(&self, name: &str) -> bool {
        fs::metadata(self.rt, name).is_ok()
    }
}

/// What an error of the system says.
fn sentence(kind: ErrorKind) -> &'static [u8] {
    match kind {
        ErrorKind::NotFound => b"there is no file of this name",
        ErrorKind::PermissionDenied => b"permission denied",
        ErrorKind::NotADirectory => b"a name on the way to it is no folder",
        ErrorKind::IsADirectory => b"it is a folder",
        ErrorKind::ReadOnlyFilesystem => b"the file system is read-only",
        ErrorKind::StorageFull | ErrorKind::QuotaExceeded => b"there is no room on the disk",
        ErrorKind::FilesystemLoop => b"symbolic links lead in a circle",
        ErrorKind::InvalidFilename | ErrorKind::InvalidInput => b"no file can have this name",
        _ => b"the system doesn't let it be opened",
    }
}
