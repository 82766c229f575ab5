//! Why a text and words give no question.

use crate::quote::Quote;
use crate::vector::VectorWord;
use std::alloc::AllocError;
use td_inputs::{Label, WordFault};
use td_source::SourceFault;

/// Why a text and words give no question: the text's fault, what is wrong with a word about inputs
/// by name, for inputs that are called so, a word that gives nothing for the netlist's inputs, a
/// word or a line that is no condition, one that names no net, or a file of conditions that is too
/// long.
#[derive(Drop)]
pub enum QuestionFault<'a, 'w> {
    OutOfMemory,
    Source(SourceFault<'a>),
    BadName(WordFault<'w>, Vec<Label>),
    BadVector(VectorWord),
    BadKeep(Quote<'w>),
    NoNet(Quote<'w>),
    LongKeepFile,
}

impl<'a, 'w> From<AllocError> for QuestionFault<'a, 'w> {
    ghost use Rattle.std.specs.Prelude.{◌≡◌};
    ghost use Rattle.td_question.specs.declared.fault.QuestionFault.TheVariants.{OutOfMemory};

    ghost from_gives = { λ _ fault. fault ≡ OutOfMemory };

    fn from(_error: AllocError) -> Self {
        QuestionFault::OutOfMemory
    }
}

impl<'a, 'w> From<SourceFault<'a>> for QuestionFault<'a, 'w> {
    ghost use Rattle.std.specs.Prelude.{◌≡◌};
    ghost use Rattle.td_question.specs.declared.fault.QuestionFault.TheVariants.{Source};

    ghost from_gives = { λ source fault. fault ≡ Source source };

    fn from(source: SourceFault<'a>) -> Self {
        QuestionFault::Source(source)
    }
}
