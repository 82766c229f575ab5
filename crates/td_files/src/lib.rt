//! The files and streams that a program reads and writes: what is promised of any (`Files`), files
//! in memory, and those of the system.
//!
//! Of the system's own files and streams no contract can say what they give and take: `real_files`
//! and `writer` are where trust in the operating system begins, and are short enough to be read.
#![tactic(auto)]

mod disk;
mod memory_files;
mod real_files;
mod writer;

pub use disk::{Files, ReadFault};
pub use memory_files::{MemoryFile, MemoryFiles, MemoryStep};
pub use real_files::{RealFile, RealFiles, RealWriter};
pub use writer::WriterSink;
