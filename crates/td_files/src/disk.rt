//! Named files: what a command needs of them.

use std::alloc::Global;
use std::io;
use td_certificate::WriteFault;
use td_text::Sink;

/// Why a file couldn't be read.
#[derive(Clone, Copy, Drop)]
pub enum ReadFault {
    OutOfMemory,
    Device,
}

impl From<io::Error> for ReadFault {
    ghost use Rattle.std.specs.IoError.{error_kind};
    ghost use Rattle.td_files.specs.Devices.{IsReadFault};

    ghost from_gives = { λ error fault. IsReadFault (error_kind error) fault };

    fn from(error: io::Error) -> ReadFault {
        match error.kind() {
            io::ErrorKind::OutOfMemory => ReadFault::OutOfMemory,
            _ => ReadFault::Device,
        }
    }
}

/// Files by name.
pub trait Files {
    ghost use Rattle.std.specs.Prelude.{◌≡◌, ℕ, List, [], ◌∷◌, ◌++◌, IfOk, IfErr, OnOk, OnErr};
    ghost use Rattle.td_files.specs.Disks.{Disk};
    ghost use Rattle.td_files.specs.Files.{FileStep, Made, Ended};
    ghost use Rattle.td_files.specs.declared.disk.ReadFault.TheVariants as Fault;
    ghost use Rattle.td_certificate.specs.declared.fault.WriteFault.TheVariants as Unwritten;

    /// A writer of one file, which is closed or discarded in the end.
    type Writer: Sink;

    /// What reads, writes and questions about names may answer.
    ghost disk: { Self → Disk };

    /// Between the two moments these steps were taken, in order, and no others.
    ghost did: { Self → Self → List FileStep → Type 0 };

    /// All bytes of a file. Of the system's files those named `stdin` and `-` are standard input.
    fn read(&mut self, alloc: Global, name: &str) -> Result<Vec<u8>, ReadFault>
        ensures bytes { IfOk result (λ bytes. (disk self.old).holds name.now bytes.items) }
        ensures fault { IfErr result (λ fault. fault ≡ Fault.Device → (disk self.old).fails name.now) }
        ensures stays { self.new ≡ self.old };

    /// Whether two names are of one file, so that to write the one would lose the other.
    fn are_one(&mut self, one: &str, other: &str) -> bool
        ensures answer { (disk self.old).is_one one.now other.now result }
        ensures stays { self.new ≡ self.old };

    /// A writer of a new file for this name. What has the name stays as it is until the writing is
    /// closed.
    fn create(&mut self, alloc: Global, name: &str) -> Result<Self::Writer, WriteFault>
        ensures made { IfOk result (λ writer. did self.old self.new (Made name.now (Self.Writer.output writer) ∷ [])) }
        ensures devices { (other : List ℕ) → (disk self.new).breaks other → (disk self.old).breaks other }
        ensures fault { IfErr result (λ fault. fault ≡ Unwritten.Device → (disk self.old).breaks name.now) }
        ensures stays { OnErr result (did self.old self.new []) };

    /// Ends the writing of a file: what its writer took is the file of this name now, in place of
    /// the one that had it. Where that fails, the name is as it was.
    fn close(&mut self, alloc: Global, name: &str, writer: Self::Writer) -> Result<(), WriteFault>
        ensures ended { OnOk result (did self.old self.new (Ended name.now (Self.Writer.output writer) ∷ [])) }
        ensures devices { (other : List ℕ) → (disk self.new).breaks other → (disk self.old).breaks other }
        ensures fault { IfErr result (λ fault. fault ≡ Unwritten.Device → (disk self.old).breaks name.now) }
        ensures stays { OnErr result (did self.old self.new []) };

    /// Gives up the writing of a file: what its writer took is lost, and the name is as it was.
    fn discard(&mut self, writer: Self::Writer)
        ensures stays { did self.old self.new [] }
        ensures devices { (other : List ℕ) → (disk self.new).breaks other → (disk self.old).breaks other };

    /// No step was taken where nothing was done.
    ghost did_nothing: { (files : Self) → did files files [] };

    /// Steps taken one after another were taken in all.
    ghost did_both: { (first then last : Self) (steps more : List FileStep) → did first then steps → did then last more → did first last (steps ++ more) };
}
