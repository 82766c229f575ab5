//! Files in memory, for tests.

ghost use Rattle.std.specs.Prelude.{◌≡◌, [], option_map, IfOk};
ghost use Rattle.td_files.specs.MemoryFiles.{bytes_of, made_name, ended_file};

use crate::disk::{Files, ReadFault};
use std::alloc::{AllocError, Global};
use td_certificate::WriteFault;
use td_text::MemorySink;

/// A file that was written.
#[derive(Drop)]
pub struct MemoryFile {
    name: Vec<u8>,
    sink: MemorySink,
}

impl MemoryFile {
    /// The file's name.
    pub fn name(&self) -> &[u8]
        ensures { result.now ≡ self.now.name.items }
    {
        &self.name
    }

    /// The file's bytes.
    pub fn bytes(&self) -> &[u8]
        ensures { result.now ≡ self.now.sink.bytes.items }
    {
        self.sink.bytes()
    }
}

/// What was done to a file.
#[derive(Drop)]
pub enum MemoryStep {
    /// A file for this name was begun.
    Made(Vec<u8>),
    /// A file was put under its name.
    Ended(MemoryFile),
}

impl MemoryStep {
    /// The name of a file that was begun.
    pub fn made(&self) -> Option<&[u8]>
        ensures { option_map (λ name. name.now) result ≡ made_name self.now }
    {
        match self {
            MemoryStep::Made(name) => Some(name),
            MemoryStep::Ended(_) => None,
        }
    }

    /// The file that was put under its name.
    pub fn ended(&self) -> Option<&MemoryFile>
        ensures { option_map (λ file. file.now) result ≡ ended_file self.now }
    {
        match self {
            MemoryStep::Made(_) => None,
            MemoryStep::Ended(file) => Some(file),
        }
    }
}

/// Files in memory. Reading one fails after a stated number of bytes, and so does writing one.
#[derive(Drop)]
pub struct MemoryFiles<'a> {
    files: &'a [(&'a str, &'a [u8])],
    /// How many bytes a reader gives before it fails.
    readable: usize,
    /// How many bytes a writer takes before it fails.
    writable: usize,
    steps: Vec<MemoryStep>,
}

impl<'a> MemoryFiles<'a> {
    /// These files, whose readers never fail, and whose writers fail after 1,048,576 bytes.
    pub fn new(alloc: Global, files: &'a [(&'a str, &'a [u8])]) -> Self
        ensures files { result.files.now ≡ files.now }
        ensures readable { result.readable ≡ 18446744073709551615 }
        ensures writable { result.writable ≡ 1048576 }
        ensures steps { result.steps.items ≡ [] }
    {
        MemoryFiles {
            files,
            readable: usize::MAX,
            writable: 1 << 20,
            steps: Vec::new(alloc),
        }
    }

    /// The same files, with readers that fail after that many bytes.
    pub fn reading(mut self, readable: usize) -> Self
        ensures { result ≡ record self.entry { readable = readable } }
    {
        self.readable = readable;
        self
    }

    /// The same files, with writers that fail after that many bytes.
    pub fn writing(mut self, writable: usize) -> Self
        ensures { result ≡ record self.entry { writable = writable } }
    {
        self.writable = writable;
        self
    }

    /// What was done to files, in order.
    pub fn steps(&self) -> &[MemoryStep]
        ensures { result.now ≡ self.now.steps.items }
    {
        &self.steps
    }
}

fn copied(alloc: Global, bytes: &[u8]) -> Result<Vec<u8>, AllocError>
    ensures { IfOk result (λ copy. copy.items ≡ bytes.now) }
{
    let mut copy = Vec::new(alloc);
    copy.extend_from_slice(bytes)?;
    Ok(copy)
}

/// The bytes of the first file of this name.
fn found<'a>(files: &[(&'a str, &'a [u8])], name: &str) -> Option<&'a [u8]>
    ensures { option_map (λ bytes. bytes.now) result ≡ bytes_of files.now name.now }
{
    for (file, bytes) in files {
        if *file == name {
            return Some(*bytes);
        }
    }
    None
}

impl<'a> Files for MemoryFiles<'a> {
    ghost use Rattle.std.specs.Prelude.{◌≡◌, ◌↔◌, ◌++◌, ◌∷◌, [], IsTrue, IfOk, IfErr, OnErr, map};
    ghost use Rattle.td_text.specs.MemorySinks.{output_of};
    ghost use Rattle.td_certificate.specs.declared.fault.WriteFault.TheVariants as Unwritten;
    ghost use Rattle.td_files.specs.Files.{Made};
    ghost use Rattle.td_files.specs.MemoryFiles.{Reads, FailsOn, IsAfter, after_nothing, after_both};

    /// The first file of a name gives its bytes, where they are no more than a reader gives, and no
    /// device fails to make or to end a file. Two names are of one file where they are the same.
    ghost disk = { λ files. record {
      holds = Reads files.files.now files.readable;
      fails = FailsOn files.files.now files.readable;
      breaks = λ _. ⊥;
      is_one = λ one other answer. IsTrue answer ↔ one ≡ other;
    } };

    ghost did = { λ old new steps. IsAfter old.steps.items new.steps.items steps };

    ghost did_nothing = { λ files. after_nothing files.steps.items };

    ghost did_both = { λ first then last steps more. after_both first.steps.items then.steps.items last.steps.items steps more };

    type Writer = MemorySink;

    fn read(&mut self, alloc: Global, name: &str) -> Result<Vec<u8>, ReadFault> {
        match found(self.files, name) {
            Some(bytes) if bytes.len() <= self.readable => {
                copied(alloc, bytes).map_err(|_| ReadFault::OutOfMemory)
            }
            _ => Err(ReadFault::Device),
        }
    }

    fn are_one(&mut self, one: &str, other: &str) -> bool {
        one == other
    }

    fn create(&mut self, alloc: Global, name: &str) -> Result<MemorySink, WriteFault>
        ensures made { IfOk result (λ writer. IsAfter self.old.steps.items self.new.steps.items (Made name.now (output_of writer) ∷ [])) }
        ensures limit { IfOk result (λ writer. writer.limit ≡ self.old.writable) }
        ensures fault { IfErr result (λ fault. ¬ (fault ≡ Unwritten.Device)) }
        ensures stays { OnErr result (IsAfter self.old.steps.items self.new.steps.items []) }
    {
        let sink = MemorySink::new(alloc, self.writable, usize::MAX)?;
        let name = copied(alloc, name.as_bytes())?;
        self.steps.reserve(1)?;
        self.steps.push_reserved(MemoryStep::Made(name));
        Ok(sink)
    }

    fn close(&mut self, alloc: Global, name: &str, writer: MemorySink) -> Result<(), WriteFault> {
        let name = copied(alloc, name.as_bytes())?;
        self.steps.reserve(1)?;
        let file = MemoryFile { name, sink: writer };
        self.steps.push_reserved(MemoryStep::Ended(file));
        Ok(())
    }

    fn discard(&mut self, _writer: MemorySink) {}
}
