//! The bytes of the files that a request names.

ghost use Rattle.std.specs.Prelude.{◌≡◌, ◌∷◌, [], map, option_map, None, IfOk, IfErr, OnOk};
ghost use Rattle.td_command.specs.Conflicts.{conflict_of};
ghost use Rattle.td_answer.specs.declared.status.Status.TheVariants as ending;
ghost use Rattle.td_cli.specs.Carrying.{AreHeld, IsHeldWhere};
ghost use Rattle.td_cli.specs.Reading.{AreBytes};
ghost use Rattle.td_cli.specs.Clashes.{fault_status, IsFaultOf, KeepsFiles};
ghost use Rattle.td_cli.specs.Files.{certificate_names};

use crate::fault::{Fault, unread};
use crate::outputs::{keep_file, overwriting};
use std::alloc::Global;
use td_answer::Texts;
use td_command::conflict_of;
use td_files::{Files, ReadFault};
use td_request::{Command, Request};

/// The bytes of the files that a request names.
#[derive(Drop)]
pub(crate) struct Bytes<'w> {
    pub(crate) netlist: Vec<u8>,
    pub(crate) certificates: Vec<Vec<u8>>,
    pub(crate) keep: Option<&'w [u8]>,
}

impl<'w> Bytes<'w> {
    ghost use Rattle.std.specs.Prelude.{◌≡◌};

    /// The texts.
    pub(crate) fn texts(&self) -> Texts<'_, '_, 'w>
        ensures netlist { result.netlist.now ≡ self.now.netlist.items }
        ensures certificates { result.certificates.now ≡ self.now.certificates.items }
        ensures keep { result.keep ≡ self.now.keep }
    {
        Texts {
            netlist: &self.netlist,
            certificates: &self.certificates,
            keep: self.keep,
        }
    }
}

/// The bytes of a file.
fn bytes_of<'w, F: Files>(alloc: Global, name: &'w str, files: &mut F) -> Result<Vec<u8>, Fault<'w>>
    ensures held { IfOk result (λ bytes. (F.disk files.old).holds name.now bytes.items) }
    ensures fault { IfErr result (λ fault. fault_status fault ≡ ending.Device) }
    ensures stays { files.new ≡ files.old }
{
    match files.read(alloc, name) {
        Ok(bytes) => Ok(bytes),
        Err(fault) => Err(unread(name, fault)),
    }
}

/// The bytes of the one certificate of a check.
fn bytes_of_one<'w, F: Files>(
    alloc: Global,
    name: &'w str,
    files: &mut F,
) -> Result<Vec<Vec<u8>>, Fault<'w>>
    ensures held { IfOk result (λ all. AreHeld (F.disk files.old).holds (name.now ∷ []) all.items) }
    ensures fault { IfErr result (λ fault. fault_status fault ≡ ending.Device) }
    ensures stays { files.new ≡ files.old }
{
    let bytes = bytes_of(alloc, name, files)?;
    let mut all = Vec::new(alloc);
    all.push(bytes)?;
    Ok(all)
}

/// The bytes of files, in order, up to the first that a device fails to read: what is wrong with
/// those before it is said first.
fn bytes_of_parts<'w, F: Files>(
    alloc: Global,
    names: &[&'w str],
    files: &mut F,
) -> Result<Vec<Vec<u8>>, Fault<'w>>
    ensures held { IfOk result (λ all. AreHeld (F.disk files.old).holds (map (λ name. name.now) names.now) all.items) }
    ensures fault { IfErr result (λ fault. fault_status fault ≡ ending.Device) }
    ensures stays { files.new ≡ files.old }
{
    let mut all = Vec::new(alloc);
    for name in names {
        match files.read(alloc, name) {
            Ok(bytes) => all.push(bytes)?,
            Err(ReadFault::OutOfMemory) => return Err(Fault::OutOfMemory),
            Err(ReadFault::Device) => return Ok(all),
        }
    }
    Ok(all)
}

/// The bytes of the certificates that a command reads, in the order in which it names them.
fn certificates_of<'w, F: Files>(
    alloc: Global,
    command: &Command<'w>,
    files: &mut F,
) -> Result<Vec<Vec<u8>>, Fault<'w>>
    ensures held { IfOk result (λ all. AreHeld (F.disk files.old).holds (certificate_names command.now) all.items) }
    ensures fault { IfErr result (λ fault. fault_status fault ≡ ending.Device) }
    ensures stays { files.new ≡ files.old }
{
    match command {
        Command::Check(check) => bytes_of_one(alloc, check.certificate, files),
        Command::Join(join) => bytes_of_parts(alloc, join.parts.names(), files),
        _ => Ok(Vec::new(alloc)),
    }
}

/// The bytes of a file of conditions. They are quoted as the words of the request are, and stay as
/// long as these: there is one such file in a run.
fn kept_bytes<'w, F: Files>(
    alloc: Global,
    name: &'w str,
    files: &mut F,
) -> Result<&'w [u8], Fault<'w>>
    ensures held { IfOk result (λ bytes. (F.disk files.old).holds name.now bytes.now) }
    ensures fault { IfErr result (λ fault. fault_status fault ≡ ending.Device) }
    ensures stays { files.new ≡ files.old }
{
    let bytes = bytes_of(alloc, name, files)?;
    Ok(bytes.leak())
}

/// The bytes of a file of conditions, where one is named.
fn bytes_of_any<'w, F: Files>(
    alloc: Global,
    name: Option<&'w str>,
    files: &mut F,
) -> Result<Option<&'w [u8]>, Fault<'w>>
    ensures held { IfOk result (λ bytes. IsHeldWhere (F.disk files.old).holds name.entry (option_map (λ text. text.now) bytes)) }
    ensures fault { IfErr result (λ fault. fault_status fault ≡ ending.Device) }
    ensures stays { files.new ≡ files.old }
{
    match name {
        None => Ok(None),
        Some(name) => {
            let bytes = kept_bytes(alloc, name, files)?;
            Ok(Some(bytes))
        }
    }
}

/// Reads each file that a request names once.
fn read<'w, F: Files>(
    alloc: Global,
    request: &Request<'w>,
    files: &mut F,
) -> Result<Bytes<'w>, Fault<'w>>
    ensures held { IfOk result (AreBytes (F.disk files.old).holds request.now) }
    ensures fault { IfErr result (λ fault. fault_status fault ≡ ending.Device) }
{
    let netlist = bytes_of(alloc, request.file, files)?;
    let keep = bytes_of_any(alloc, keep_file(request), files)?;
    let certificates = certificates_of(alloc, &request.command, files)?;
    Ok(Bytes {
        netlist,
        certificates,
        keep,
    })
}

/// The bytes of the files that a request names, each of which is read once. Nothing is read where
/// its options don't go together, or one of its files would be written over another.
pub(crate) fn bytes_for<'w, F: Files>(
    alloc: Global,
    request: &Request<'w>,
    files: &mut F,
) -> Result<Bytes<'w>, Fault<'w>>
    ensures held { IfOk result (AreBytes (F.disk files.old).holds request.now) }
    ensures clear { OnOk result ((conflict_of request.now ≡ None) × KeepsFiles (F.disk files.old) request.now) }
    ensures fault { IfErr result (IsFaultOf (F.disk files.old) request.now) }
{
    if let Some(conflict) = conflict_of(request) {
        return Err(Fault::Conflict(conflict));
    }
    match overwriting(files, request) {
        Some(fault) => Err(fault),
        None => read(alloc, request, files),
    }
}
