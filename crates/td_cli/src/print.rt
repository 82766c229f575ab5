//! A report in its form.

ghost use Rattle.std.specs.Prelude.{◌≡◌, IfOk, IfErr, OnOk};
ghost use Rattle.td_text.specs.Output.{Sent, SentFront};
ghost use Rattle.td_lines.specs.Texts.{report_text};
ghost use Rattle.td_lines.specs.Asked.{report_json};
ghost use Rattle.td_answer.specs.declared.status.Status.TheVariants as ending;
ghost use Rattle.td_cli.specs.Asking.{asked_of};
ghost use Rattle.td_cli.specs.Carrying.{print_of};
ghost use Rattle.td_cli.specs.Clashes.{fault_status};

use crate::asked::asked;
use crate::fault::Fault;
use std::alloc::{AllocError, Global};
use td_lines::{Line, Text, print_json, print_text};
use td_request::{Form, Request};
use td_text::Sink;

fn as_text(alloc: Global, report: &[Line]) -> Result<Text, AllocError>
    ensures { IfOk result (λ text. text ≡ report_text report.now) }
{
    let mut text = Text::new(alloc);
    print_text(&mut text, report)?;
    Ok(text)
}

/// Writes bytes to standard output.
pub(crate) fn write<'w, O: Sink>(bytes: &[u8], out: &mut O) -> Result<(), Fault<'w>>
    ensures front { SentFront (O.output out.old) (O.output out.new) bytes.now }
    ensures whole { OnOk result (Sent (O.output out.old) (O.output out.new) bytes.now) }
    ensures fault { IfErr result (λ fault. fault_status fault ≡ ending.Device) }
{
    match out.write_all(bytes) {
        Ok(()) => Ok(()),
        Err(_) => Err(Fault::Unwritten("-")),
    }
}

fn show_text<'w, O: Sink>(alloc: Global, report: &[Line], out: &mut O) -> Result<(), Fault<'w>>
    ensures front { SentFront (O.output out.old) (O.output out.new) (report_text report.now) }
    ensures whole { OnOk result (Sent (O.output out.old) (O.output out.new) (report_text report.now)) }
    ensures fault { IfErr result (λ fault. fault_status fault ≡ ending.Device) }
{
    match as_text(alloc, report) {
        Ok(text) => write(text.bytes(), out),
        Err(_) => Err(Fault::OutOfMemory),
    }
}

fn json_of(alloc: Global, request: &Request<'_>, report: &[Line]) -> Result<Vec<u8>, AllocError>
    ensures { IfOk result (λ text. text.items ≡ report_json (asked_of request.now) report.now) }
{
    let asked = asked(alloc, request)?;
    print_json(alloc, &asked, report)
}

fn show_json<'w, O: Sink>(
    alloc: Global,
    request: &Request<'_>,
    report: &[Line],
    out: &mut O,
) -> Result<(), Fault<'w>>
    ensures front { SentFront (O.output out.old) (O.output out.new) (report_json (asked_of request.now) report.now) }
    ensures whole { OnOk result (Sent (O.output out.old) (O.output out.new) (report_json (asked_of request.now) report.now)) }
    ensures fault { IfErr result (λ fault. fault_status fault ≡ ending.Device) }
{
    match json_of(alloc, request, report) {
        Ok(text) => write(&text, out),
        Err(_) => Err(Fault::OutOfMemory),
    }
}

/// Writes a report to standard output, in the form that the request asks for: all of it, or a
/// beginning.
pub(crate) fn show<'w, O: Sink>(
    alloc: Global,
    request: &Request<'_>,
    report: &[Line],
    out: &mut O,
) -> Result<(), Fault<'w>>
    ensures front { SentFront (O.output out.old) (O.output out.new) (print_of request.now report.now) }
    ensures whole { OnOk result (Sent (O.output out.old) (O.output out.new) (print_of request.now report.now)) }
    ensures fault { IfErr result (λ fault. fault_status fault ≡ ending.Device) }
{
    match request.form {
        Form::Quiet => Ok(()),
        Form::Text => show_text(alloc, report, out),
        Form::Json => show_json(alloc, request, report, out),
    }
}
