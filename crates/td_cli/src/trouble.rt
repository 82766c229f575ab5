//! Why there is no outcome, as JSON.

ghost use Rattle.std.specs.Prelude.{◌≡◌, IfOk};
ghost use Rattle.td_text.specs.Output.{SentFront};
ghost use Rattle.td_lines.specs.Asked.{error_json};
ghost use Rattle.td_lines.specs.Said.{entries_of};
ghost use Rattle.td_answer.specs.Statuses.{code_of};
ghost use Rattle.td_cli.specs.Asking.{asked_of};
ghost use Rattle.td_cli.specs.Carrying.{IsUnreported};

use crate::asked::asked;
use crate::origin::Origin;
use crate::print::write;
use std::alloc::{AllocError, Global};
use td_answer::Status;
use td_lines::{Label, Said, Terms, Text, print_error};
use td_request::{Form, Request};
use td_text::Sink;

/// Why there is no outcome: what is at fault, a sentence, which is a line, and what it means and
/// what to do, where that is known.
#[derive(Drop)]
pub(crate) struct Trouble {
    pub(crate) origin: Origin,
    pub(crate) sentence: Result<Text, AllocError>,
    pub(crate) hint: Result<Text, AllocError>,
}

fn label(alloc: Global, bytes: &[u8]) -> Result<Label, AllocError> {
    let text = String::from_utf8_lossy(alloc, bytes)?;
    Ok(Label::new(text))
}

/// A sentence without the program's name and the end of its line.
fn message_of(line: &[u8]) -> &[u8] {
    let words = line.strip_prefix(b"tdelay: ").unwrap_or(line);
    words.strip_suffix(b"\n").unwrap_or(words)
}

fn error_of(alloc: Global, trouble: Trouble) -> Result<Terms, AllocError> {
    let Trouble {
        origin,
        sentence,
        hint,
    } = trouble;
    let sentence = sentence?;
    let hint = hint?;
    let mut error = Terms::new(alloc);
    let kind = label(alloc, origin.kind.as_bytes())?;
    error.add("kind", Said::Word(kind))?;
    if let Some(line) = origin.line {
        error.add("line", Said::Number(u64::from(line)))?;
    }
    let message = label(alloc, message_of(sentence.bytes()))?;
    error.add("message", Said::Word(message))?;
    if !hint.bytes().is_empty() {
        let hint = label(alloc, hint.bytes())?;
        error.add("hint", Said::Word(hint))?;
    }
    Ok(error)
}

fn json_of(
    alloc: Global,
    request: &Request<'_>,
    error: &Terms,
    status: Status,
) -> Result<Vec<u8>, AllocError>
    ensures { IfOk result (λ text. text.items ≡ error_json (asked_of request.now) (entries_of error.now) (code_of status)) }
{
    let asked = asked(alloc, request)?;
    print_error(alloc, &asked, error, u64::from(status.code()))
}

fn show_error<O: Sink>(
    alloc: Global,
    request: &Request<'_>,
    error: &Terms,
    status: Status,
    out: &mut O,
)
    ensures { SentFront (O.output out.old) (O.output out.new) (error_json (asked_of request.now) (entries_of error.now) (code_of status)) }
{
    if let Ok(text) = json_of(alloc, request, error, status) {
        let _written = write(&text, out);
    }
}

/// Says why there is no outcome on standard output, where the request asks for JSON. A writer that
/// fails is ignored, and so is want of memory.
pub(crate) fn show_trouble<O: Sink>(
    alloc: Global,
    request: &Request<'_>,
    trouble: Trouble,
    status: Status,
    out: &mut O,
)
    ensures { IsUnreported request.now status (O.output out.old) (O.output out.new) }
{
    match request.form {
        Form::Json => {
            if let Ok(error) = error_of(alloc, trouble) {
                show_error(alloc, request, &error, status, out);
            }
        }
        Form::Text | Form::Quiet => {}
    }
}
