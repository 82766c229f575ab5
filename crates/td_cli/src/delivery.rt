//! Where the parts of an outcome go.

ghost use Rattle.std.specs.Prelude.{◌≡◌, ◌||◌, true, IfSome, IfErr, OnOk};
ghost use Rattle.td_text.specs.Output.{SentFront};
ghost use Rattle.td_certificate.specs.Spelling.{HasSpelling};
ghost use Rattle.td_answer.specs.Writing.{HasDump, CanBeWritten};
ghost use Rattle.td_answer.specs.declared.status.Status.TheVariants as ending;
ghost use Rattle.td_cli.specs.Carrying.{print_of, goes_out, IsShown};
ghost use Rattle.td_cli.specs.Clashes.{fault_status};

use crate::fault::{Fault, unwritten};
use crate::outputs::{Outputs, outputs_of};
use crate::print::show;
use std::alloc::Global;
use td_answer::{Dump, Outcome};
use td_certificate::{Certificate, WriteFault};
use td_files::Files;
use td_request::Request;
use td_text::Sink;
use td_vcd::VcdFault;

/// Whether a file of this name goes to standard output.
fn goes_out(name: Option<&str>) -> bool
    ensures { result ≡ goes_out name.entry }
{
    match name {
        Some(name) => name == "-",
        None => false,
    }
}

/// Whether a file of an outcome goes to standard output, in place of the report.
fn is_beside(outputs: Outputs<'_>, outcome: &Outcome) -> bool
    ensures { result ≡ true → (goes_out outputs.entry.certificate || goes_out outputs.entry.dump) ≡ true }
{
    if goes_out(outputs.certificate) {
        return outcome.certificate.is_some();
    }
    goes_out(outputs.dump) && outcome.dump.is_some()
}

/// Writes a certificate to a new file. It has its name once it is whole; where its writer fails,
/// the name is as it was.
fn write_certificate<F: Files>(
    alloc: Global,
    files: &mut F,
    name: &str,
    certificate: &Certificate,
) -> Result<(), WriteFault>
    requires { HasSpelling certificate.now }
{
    let mut writer = files.create(alloc, name)?;
    match td_certificate::write(alloc, &mut writer, certificate) {
        Ok(()) => files.close(alloc, name, writer),
        Err(torn) => {
            files.discard(writer);
            Err(torn)
        }
    }
}

fn write_fault(fault: VcdFault) -> WriteFault {
    match fault {
        VcdFault::OutOfMemory => WriteFault::OutOfMemory,
        VcdFault::Device => WriteFault::Device,
    }
}

/// Writes the text of a dump.
fn write_dump<W: Sink>(alloc: Global, out: &mut W, dump: &Dump) -> Result<(), VcdFault>
    requires { HasDump dump.now }
{
    match dump {
        Dump::Whole(waves) => td_vcd::write(alloc, out, &waves.circuit, &waves.run),
        Dump::Chosen(waves) => {
            td_vcd::write_chosen(alloc, out, &waves.circuit, &waves.kept, &waves.nets)
        }
    }
}

/// Writes waves to a new file, as `write_certificate` does a certificate.
fn write_waves<F: Files>(
    alloc: Global,
    files: &mut F,
    name: &str,
    dump: &Dump,
) -> Result<(), WriteFault>
    requires { HasDump dump.now }
{
    let mut writer = files.create(alloc, name)?;
    match write_dump(alloc, &mut writer, dump) {
        Ok(()) => files.close(alloc, name, writer),
        Err(torn) => {
            files.discard(writer);
            Err(write_fault(torn))
        }
    }
}

fn keep_certificate<'w, F: Files>(
    alloc: Global,
    files: &mut F,
    name: Option<&'w str>,
    certificate: &Option<Certificate>,
) -> Result<(), Fault<'w>>
    requires { IfSome certificate.now HasSpelling }
    ensures { IfErr result (λ fault. fault_status fault ≡ ending.Device) }
{
    let Some(certificate) = certificate else {
        return Ok(());
    };
    let Some(name) = name else {
        return Ok(());
    };
    match write_certificate(alloc, files, name, certificate) {
        Ok(()) => Ok(()),
        Err(fault) => Err(unwritten(name, fault)),
    }
}

fn keep_waves<'w, F: Files>(
    alloc: Global,
    files: &mut F,
    name: Option<&'w str>,
    dump: &Option<Dump>,
) -> Result<(), Fault<'w>>
    requires { IfSome dump.now HasDump }
    ensures { IfErr result (λ fault. fault_status fault ≡ ending.Device) }
{
    let Some(dump) = dump else {
        return Ok(());
    };
    let Some(name) = name else {
        return Ok(());
    };
    match write_waves(alloc, files, name, dump) {
        Ok(()) => Ok(()),
        Err(fault) => Err(unwritten(name, fault)),
    }
}

/// Writes the files of an outcome: the certificate, then the waves. Where the one fails, the other
/// isn't begun.
fn keep<'w, F: Files>(
    alloc: Global,
    outputs: Outputs<'w>,
    outcome: &Outcome,
    files: &mut F,
) -> Result<(), Fault<'w>>
    requires { CanBeWritten outcome.now }
    ensures { IfErr result (λ fault. fault_status fault ≡ ending.Device) }
{
    match keep_certificate(alloc, files, outputs.certificate, &outcome.certificate) {
        Ok(()) => keep_waves(alloc, files, outputs.dump, &outcome.dump),
        Err(fault) => Err(fault),
    }
}

/// Shows the report of an outcome, unless a file goes to standard output.
fn report<'w, O: Sink>(
    alloc: Global,
    request: &Request<'w>,
    outcome: &Outcome,
    out: &mut O,
) -> Result<(), Fault<'w>>
    ensures shown { SentFront (O.output out.old) (O.output out.new) (print_of request.now outcome.now.report) }
    ensures whole { OnOk result (IsShown request.now outcome.now (O.output out.old) (O.output out.new)) }
    ensures fault { IfErr result (λ fault. fault_status fault ≡ ending.Device) }
{
    if is_beside(outputs_of(request), outcome) {
        return Ok(());
    }
    show(alloc, request, outcome.report.lines(), out)
}

/// Shows the report of an outcome, unless a file goes to standard output, and then writes its
/// files.
pub(crate) fn deliver<'w, F: Files, O: Sink>(
    alloc: Global,
    request: &Request<'w>,
    outcome: &Outcome,
    files: &mut F,
    out: &mut O,
) -> Result<(), Fault<'w>>
    requires { CanBeWritten outcome.now }
    ensures shown { SentFront (O.output out.old) (O.output out.new) (print_of request.now outcome.now.report) }
    ensures whole { OnOk result (IsShown request.now outcome.now (O.output out.old) (O.output out.new)) }
    ensures fault { IfErr result (λ fault. fault_status fault ≡ ending.Device) }
{
    match report(alloc, request, outcome, out) {
        Ok(()) => keep(alloc, outputs_of(request), outcome, files),
        Err(fault) => Err(fault),
    }
}
