//! Why a request isn't carried out to its end, by its files and streams.

ghost use Rattle.std.specs.Prelude.{◌≡◌};
ghost use Rattle.td_answer.specs.declared.status.Status.TheVariants as ending;
ghost use Rattle.td_cli.specs.Clashes.{fault_status};

use std::alloc::{AllocError, AllocFailed};
use td_answer::Status;
use td_certificate::WriteFault;
use td_command::Conflict;
use td_files::ReadFault;
use td_lines::Text;

/// Why a request isn't carried out to its end, by its files and streams.
#[derive(Clone, Copy, Drop)]
pub enum Fault<'w> {
    OutOfMemory,
    /// `--each` doesn't go together with this.
    Conflict(Conflict),
    /// The file of the first name would be written over the file of the second.
    OneFile(&'w str, &'w str),
    /// A device fails to read the file of this name.
    Unread(&'w str),
    /// A device fails to write the file of this name; `-` is standard output.
    Unwritten(&'w str),
    /// There is no thread for the timer that is asked for, or no clock that it can read.
    NoTimer,
}

impl<'w> From<AllocError> for Fault<'w> {
    ghost use Rattle.std.specs.Prelude.{◌≡◌};
    ghost use Rattle.td_cli.specs.declared.fault.Fault.TheVariants.{OutOfMemory};

    ghost from_gives = { λ _ fault. fault ≡ OutOfMemory };

    fn from(_error: AllocError) -> Self {
        Fault::OutOfMemory
    }
}

impl<'w, T: Drop> From<AllocFailed<T>> for Fault<'w> {
    ghost use Rattle.std.specs.Prelude.{◌≡◌};
    ghost use Rattle.td_cli.specs.declared.fault.Fault.TheVariants.{OutOfMemory};

    ghost from_gives = { λ _ fault. fault ≡ OutOfMemory };

    fn from(_failed: AllocFailed<T>) -> Self {
        Fault::OutOfMemory
    }
}

/// The fault of a file of this name that can't be read.
pub(crate) fn unread<'w>(name: &'w str, fault: ReadFault) -> Fault<'w>
    ensures { fault_status result ≡ ending.Device }
{
    match fault {
        ReadFault::OutOfMemory => Fault::OutOfMemory,
        ReadFault::Device => Fault::Unread(name),
    }
}

/// The fault of a file of this name that can't be written.
pub(crate) fn unwritten<'w>(name: &'w str, fault: WriteFault) -> Fault<'w>
    ensures { fault_status result ≡ ending.Device }
{
    match fault {
        WriteFault::OutOfMemory => Fault::OutOfMemory,
        WriteFault::Device => Fault::Unwritten(name),
    }
}

impl<'w> Fault<'w> {
    /// How the program ends with it.
    pub(crate) fn status(&self) -> Status
        ensures { result ≡ fault_status self.now }
    {
        match self {
            Fault::OutOfMemory | Fault::Unread(_) | Fault::Unwritten(_) | Fault::NoTimer => {
                Status::Device
            }
            Fault::Conflict(_) | Fault::OneFile(..) => Status::BadCommand,
        }
    }

    /// Appends its sentence, a line.
    pub(crate) fn sentence(&self, out: &mut Text) -> Result<(), AllocError> {
        match self {
            Fault::OutOfMemory => out.push(b"tdelay: out of memory\n"),
            Fault::Conflict(conflict) => out.push(conflict.line()),
            Fault::OneFile(over, file) => one_file(out, over, file),
            Fault::Unread(name) => out.word_between(b"tdelay: cannot read ", name, b"\n"),
            Fault::Unwritten(name) => {
                out.word_between(b"tdelay: cannot write ", written_as(name), b"\n")
            }
            Fault::NoTimer => out.push(b"tdelay: no timer\n"),
        }
    }
}

fn one_file(out: &mut Text, over: &str, file: &str) -> Result<(), AllocError> {
    out.word_between(b"tdelay: ", over, b" is ")?;
    out.word_between(b"", file, b"\n")
}

/// The name of a written file in messages: `stdout` for `-`.
fn written_as(name: &str) -> &str {
    if name == "-" { "stdout" } else { name }
}
