//! Lines on standard error.

ghost use Rattle.std.specs.Prelude.{◌≡◌, ◌⊎◌};
ghost use Rattle.td_answer.specs.declared.status.Status.TheVariants as ending;
ghost use Rattle.td_cli.specs.Clashes.{fault_status};

use crate::fault::Fault;
use std::alloc::{AllocError, Global};
use td_answer::{Refusal, Status};
use td_lines::Text;
use td_text::Sink;

/// Writes bytes to standard error, where a writer that fails is ignored.
pub(crate) fn tell<E: Sink>(err: &mut E, bytes: &[u8]) {
    let _written = err.write_all(bytes);
}

/// Says a sentence, or that memory ran out where there is none. Answers how the program ends.
pub(crate) fn say<E: Sink>(
    sentence: &Result<Text, AllocError>,
    status: Status,
    err: &mut E,
) -> Status
    ensures { (result ≡ status) ⊎ (result ≡ ending.Device) }
{
    match sentence {
        Ok(text) => {
            tell(err, text.bytes());
            status
        }
        Err(_) => {
            tell(err, b"tdelay: out of memory\n");
            Status::Device
        }
    }
}

/// The sentence of a fault, a line.
pub(crate) fn fault_sentence(alloc: Global, fault: Fault<'_>) -> Result<Text, AllocError> {
    let mut text = Text::new(alloc);
    fault.sentence(&mut text)?;
    Ok(text)
}

/// The sentence of a refusal, a line.
pub(crate) fn refusal_sentence(
    alloc: Global,
    refusal: &Refusal<'_, '_>,
) -> Result<Text, AllocError> {
    let mut text = Text::new(alloc);
    refusal.sentence(&mut text)?;
    Ok(text)
}

/// Says what a fault is. Answers how the program ends.
pub(crate) fn tell_fault<E: Sink>(alloc: Global, fault: Fault<'_>, err: &mut E) -> Status
    ensures { (result ≡ fault_status fault.entry) ⊎ (result ≡ ending.Device) }
{
    say(&fault_sentence(alloc, fault), fault.status(), err)
}
