//! The files of the system.

ghost use Rattle.std.specs.Prelude.{◌≡◌, IfOk, IfSome, OnOk};
ghost use Rattle.std.specs.IoError.{error_kind};
ghost use Rattle.std.specs.Io.KnownBytes.{IsAtEnd};
ghost use Rattle.td_files.specs.Devices.{IsWriteFault};

use crate::disk::{Files, ReadFault};
use crate::writer::WriterSink;
use std::alloc::Global;
use std::fs::{File, Metadata};
use std::io::{Print, Printer, Read};
use std::os::unix::fs::MetadataExt;
use std::path::Path;
use std::{fs, io, rt};
use td_certificate::WriteFault;
use td_text::{DeviceFault, Sink};

/// How many names are tried for a file that is written beside the one whose place it takes.
const TRIES: u32 = 100;

/// The files of the system.
#[derive(Drop)]
pub struct RealFiles<'r, R> {
    rt: &'r R,
}

/// Where a file is written, and the name that it gets once it is whole.
#[derive(Drop)]
struct Place {
    part: String,
    target: String,
}

/// A writer of a file of the system. A file is written beside the one whose place it takes; what
/// isn't a file, as a device or a pipe, is written as it is, and so is standard output, whose name
/// is `-`.
#[derive(Drop)]
pub enum RealWriter<F, P> {
    File(RealFile<F>),
    Output(WriterSink<P>),
}

/// A file that is being written.
#[derive(Drop)]
pub struct RealFile<F> {
    sink: WriterSink<F>,
    place: Option<Place>,
}

impl<F: io::Write, P: io::Write> RealWriter<F, P> {
    /// Where a file is written beside its target, if this is such a file.
    fn place(&self) -> Option<&Place> {
        match self {
            RealWriter::File(
                RealFile {
                    place: Some(place),
                    ..
                },
            ) => Some(place),
            _ => None,
        }
    }
}

impl<F: io::Write, P: io::Write> Sink for RealWriter<F, P> {
    ghost use Rattle.std.specs.Prelude.{◌≡◌};
    ghost use Rattle.td_files.specs.RealWriters.{output_of};

    ghost output = { λ writer. output_of F.contents P.contents writer };

    fn write(&mut self, bytes: &[u8]) -> Result<usize, DeviceFault> {
        match self {
            RealWriter::File(file) => file.sink.write(bytes),
            RealWriter::Output(sink) => sink.write(bytes),
        }
    }
}

impl<'r, R: rt::Files + Input + Print + AllocGlobal> RealFiles<'r, R> {
    ghost use Rattle.std.specs.Prelude.{◌≡◌};

    /// The files that the runtime `rt` gives.
    pub fn new(rt: &'r R) -> Self
        ensures { result.rt.now ≡ rt.now }
    {
        RealFiles { rt }
    }

    /// A new file beside this one.
    fn beside(&self, alloc: Global, target: String) -> io::Result<RealFile<R::File>> {
        for number in 0..TRIES {
            let part = format!(in alloc; "{target}.part{number}")?;
            match File::create_new(self.rt, part.as_str()) {
                Ok(file) => {
                    let sink = WriterSink::new(file);
                    let place = Some(Place { part, target });
                    return Ok(RealFile { sink, place });
                }
                Err(error) => {
                    if error.kind() != io::ErrorKind::AlreadyExists {
                        return Err(error);
                    }
                }
            }
        }
        Err(io::Error::from(io::ErrorKind::AlreadyExists))
    }

    /// A writer in the place of a file that is there, with the permissions of the old one. It
    /// follows symbolic links.
    fn in_place(&self, alloc: Global, name: &str, old: &Metadata) -> io::Result<RealFile<R::File>> {
        let path = fs::canonicalize(self.rt, name)?;
        let writer = self.beside(alloc, path.into_string())?;
        if let Some(place) = &writer.place {
            let _kept = fs::set_permissions(self.rt, place.part.as_str(), old.permissions());
        }
        Ok(writer)
    }

    /// A writer for a file of this name.
    fn file(&self, alloc: Global, name: &str) -> io::Result<RealFile<R::File>> {
        match fs::metadata(self.rt, name) {
            Ok(old) if old.is_file() => self.in_place(alloc, name, &old),
            Ok(_) => {
                let sink = WriterSink::new(fs::create(self.rt, name)?);
                Ok(RealFile { sink, place: None })
            }
            Err(error) => {
                if error.kind() != io::ErrorKind::NotFound {
                    return Err(error);
                }
                self.beside(alloc, String::from_str(alloc, name)?)
            }
        }
    }

    /// Puts a file that was written beside its target into the target's place.
    fn put(&self, place: &Place) -> Result<(), WriteFault> {
        match fs::rename(self.rt, place.part.as_str(), place.target.as_str()) {
            Ok(()) => Ok(()),
            Err(error) => {
                self.give_up(place);
                Err(write_fault_of(error))
            }
        }
    }

    /// Removes a file that was written beside its target.
    fn give_up(&self, place: &Place) {
        let _lost = fs::remove_file(self.rt, place.part.as_str());
    }

    /// Whether two names that no file has would be of one file: the same name in the same folder.
    fn are_one_new(&self, one: &str, other: &str) -> bool {
        let (one, other) = (Path::new(one), Path::new(other));
        one.file_name() == other.file_name() && self.are_one_folder(one.parent(), other.parent())
    }

    fn are_one_folder(&self, one: Option<Path<'_>>, other: Option<Path<'_>>) -> bool {
        match (self.folder(one), self.folder(other)) {
            (Ok(one), Ok(other)) => is_same(&one, &other),
            _ => false,
        }
    }

    /// What the system says of a folder, which is the current one where none is named.
    fn folder(&self, folder: Option<Path<'_>>) -> io::Result<Metadata> {
        let name = match &folder {
            Some(path) => path.as_str(),
            None => "",
        };
        fs::metadata(self.rt, if name.is_empty() { "." } else { name })
    }
}

/// Whether a file that is read under this name is standard input.
fn is_input(name: &str) -> bool {
    name == "stdin" || name == "-"
}

/// Whether a file that is written under this name is standard output.
fn is_output(name: &str) -> bool {
    name == "-"
}

/// Whether this is said of one file, or of one folder.
fn is_same(one: &Metadata, other: &Metadata) -> bool {
    one.dev() == other.dev() && one.ino() == other.ino()
}

/// All bytes that a reader has left.
fn read_all<R: Read>(alloc: Global, reader: &mut R) -> Result<Vec<u8>, ReadFault>
    ensures all { IfOk result (λ bytes. IfSome (R.remaining reader.old) (λ left. bytes.items ≡ left)) }
    ensures end { OnOk result (IsAtEnd (R.remaining reader.new)) }
{
    let mut bytes = Vec::new(alloc);
    match reader.read_to_end(&mut bytes) {
        Ok(_) => Ok(bytes),
        Err(error) => Err(ReadFault::from(error)),
    }
}

fn write_fault_of(error: io::Error) -> WriteFault
    ensures { IsWriteFault (error_kind error) result }
{
    match error.kind() {
        io::ErrorKind::OutOfMemory => WriteFault::OutOfMemory,
        _ => WriteFault::Device,
    }
}

impl<'r, R: rt::Files + Input + Print + AllocGlobal> Files for RealFiles<'r, R> {
    ghost use Rattle.std.specs.Prelude.{⊤};

    /// Of the system's files nothing is known: what a name holds, which devices fail, which names
    /// are of one file, and what was done to them.
    ghost disk = { λ _. record { holds = λ _ _. ⊤; fails = λ _. ⊤; breaks = λ _. ⊤; is_one = λ _ _ _. ⊤ } };

    ghost did = { λ _ _ _. ⊤ };

    ghost did_nothing = { λ _. tt };

    ghost did_both = { λ _ _ _ _ _ _ _. tt };

    type Writer = RealWriter<R::File, Printer<'r, R>>;

    fn read(&mut self, alloc: Global, name: &str) -> Result<Vec<u8>, ReadFault> {
        if is_input(name) {
            return read_all(alloc, &mut self.rt.reader());
        }
        match fs::open(self.rt, name) {
            Ok(mut file) => read_all(alloc, &mut file),
            Err(error) => Err(ReadFault::from(error)),
        }
    }

    fn are_one(&mut self, one: &str, other: &str) -> bool {
        if is_output(one) || is_output(other) {
            return one == other;
        }
        let other = if is_input(other) { "/dev/stdin" } else { other };
        match (fs::metadata(self.rt, one), fs::metadata(self.rt, other)) {
            (Ok(one), Ok(other)) => one.is_file() && other.is_file() && is_same(&one, &other),
            (Err(_), Err(_)) => self.are_one_new(one, other),
            _ => false,
        }
    }

    fn create(&mut self, alloc: Global, name: &str) -> Result<Self::Writer, WriteFault> {
        if is_output(name) {
            return Ok(RealWriter::Output(WriterSink::new(io::writer(self.rt))));
        }
        match self.file(alloc, name) {
            Ok(file) => Ok(RealWriter::File(file)),
            Err(error) => Err(write_fault_of(error)),
        }
    }

    fn close(
        &mut self,
        _alloc: Global,
        _name: &str,
        writer: Self::Writer,
    ) -> Result<(), WriteFault> {
        match writer.place() {
            Some(place) => self.put(place),
            None => Ok(()),
        }
    }

    fn discard(&mut self, writer: Self::Writer) {
        if let Some(place) = writer.place() {
            self.give_up(place);
        }
    }
}
