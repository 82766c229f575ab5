//! The files that a request writes.

ghost use Rattle.std.specs.Prelude.{◌≡◌, ◌⊎◌, ℕ, List, All, map, IfSome, IfNone};
ghost use Rattle.std.specs.List.{Contains};
ghost use Rattle.td_cli.specs.Clashes.{AreApart, AreOne, IsFaultOf, IsOneFile, IsOverAny, IsOverRead, KeepsAny, KeepsFiles, KeepsRead, read_name, word_of};
ghost use Rattle.td_cli.specs.Files.{keep_file, outputs_of};

use crate::fault::Fault;
use td_files::Files;
use td_request::{Command, Request};

/// The names of the files that a request writes: the certificate's and the waves'.
#[derive(Clone, Copy, Drop)]
pub(crate) struct Outputs<'w> {
    pub(crate) certificate: Option<&'w str>,
    pub(crate) dump: Option<&'w str>,
}

/// The names of the files that a request writes.
pub(crate) fn outputs_of<'w>(request: &Request<'w>) -> Outputs<'w>
    ensures { result ≡ outputs_of request.now.command }
{
    match &request.command {
        Command::Worst(search) => named(search.certificate, search.dump),
        Command::Sim(sim) => named(None, sim.dump),
        Command::Join(join) => named(join.certificate, None),
        _ => named(None, None),
    }
}

/// The files of these names.
fn named<'w>(certificate: Option<&'w str>, dump: Option<&'w str>) -> Outputs<'w>
    ensures { result ≡ record { certificate = certificate.entry; dump = dump.entry } }
{
    Outputs { certificate, dump }
}

/// The name of the file of conditions that a request reads, where it names one.
pub(crate) fn keep_file<'w>(request: &Request<'w>) -> Option<&'w str>
    ensures { result ≡ keep_file request.now.command }
{
    match &request.command {
        Command::Worst(search) => search.question.keep_file,
        Command::Parts(parts) => parts.question.keep_file,
        Command::Join(join) => join.question.keep_file,
        _ => None,
    }
}

/// Why a request isn't carried out that would write one of its files over another: the netlist, the
/// file of conditions or a part's certificate that it reads, or the other file that it writes.
pub(crate) fn overwriting<'w, F: Files>(files: &mut F, request: &Request<'w>) -> Option<Fault<'w>>
    ensures some { IfSome result (IsFaultOf (F.disk files.old) request.now) }
    ensures none { IfNone result (KeepsFiles (F.disk files.old) request.now) }
    ensures stays { files.new ≡ files.old }
{
    let outputs = outputs_of(request);
    if let Some(fault) = over_read(files, outputs.certificate, request.file) {
        return Some(fault);
    }
    if let Some(fault) = over_read(files, outputs.dump, request.file) {
        return Some(fault);
    }
    if let Some(fault) = over_either(files, outputs, keep_file(request)) {
        return Some(fault);
    }
    match &request.command {
        Command::Join(join) => over_one_of(files, outputs.certificate, join.parts.names()),
        _ => over(files, outputs.dump, outputs.certificate),
    }
}

/// One of the files that are written in place of one that is read, where it is named.
fn over_either<'w, F: Files>(
    files: &mut F,
    outputs: Outputs<'w>,
    file: Option<&'w str>,
) -> Option<Fault<'w>>
    ensures some { IfSome result (λ fault. IsOneFile fault × (IsOverAny (F.disk files.old) outputs.entry.certificate file.entry ⊎ IsOverAny (F.disk files.old) outputs.entry.dump file.entry)) }
    ensures none { IfNone result (KeepsAny (F.disk files.old) outputs.entry.certificate file.entry × KeepsAny (F.disk files.old) outputs.entry.dump file.entry) }
    ensures stays { files.new ≡ files.old }
{
    let Some(file) = file else {
        return None;
    };
    match over_read(files, outputs.certificate, file) {
        Some(fault) => Some(fault),
        None => over_read(files, outputs.dump, file),
    }
}

/// One file in place of one of those that are read.
fn over_one_of<'w, F: Files>(
    files: &mut F,
    out: Option<&'w str>,
    names: &[&'w str],
) -> Option<Fault<'w>>
    ensures some { IfSome result (λ fault. IsOneFile fault × ((name : List ℕ) × Contains (map (λ name. name.now) names.now) name
        × IsOverRead (F.disk files.old) out.entry name)) }
    ensures none { IfNone result (All (KeepsRead (F.disk files.old) out.entry) (map (λ name. name.now) names.now)) }
    ensures stays { files.new ≡ files.old }
{
    for name in names {
        if let Some(fault) = over_read(files, out, name) {
            return Some(fault);
        }
    }
    None
}

/// One file in place of one that is read.
fn over_read<'w, F: Files>(files: &mut F, out: Option<&'w str>, file: &'w str) -> Option<Fault<'w>>
    ensures some { IfSome result (λ fault. IsOneFile fault × IsOverRead (F.disk files.old) out.entry file.now) }
    ensures none { IfNone result (KeepsRead (F.disk files.old) out.entry file.now) }
    ensures stays { files.new ≡ files.old }
{
    over(files, out, Some(read_as(file)))
}

/// The name under which a file is read: `-` is `stdin`.
pub(crate) fn read_as(name: &str) -> &str
    ensures { result.now ≡ read_name name.now }
{
    if name == "-" { "stdin" } else { name }
}

/// One file in place of another, where both are named.
fn over<'w, F: Files>(
    files: &mut F,
    out: Option<&'w str>,
    file: Option<&'w str>,
) -> Option<Fault<'w>>
    ensures some { IfSome result (λ fault. IsOneFile fault × AreOne (F.disk files.old) out.entry (word_of file.entry)) }
    ensures none { IfNone result (AreApart (F.disk files.old) out.entry (word_of file.entry)) }
    ensures stays { files.new ≡ files.old }
{
    let (Some(out), Some(file)) = (out, file) else {
        return None;
    };
    if files.are_one(out, file) {
        Some(Fault::OneFile(out, file))
    } else {
        None
    }
}
