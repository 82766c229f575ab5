//! From the bytes of a text to its syntax tree.

ghost use Rattle.std.specs.Prelude.{IfOk, Ok};
ghost use Rattle.td_syntax.specs.Grammar as grammar;
ghost use Rattle.td_syntax.specs.Faults.{Gives};
ghost use Rattle.td_syntax.specs.FirstFault.{syntax_of};
ghost use Rattle.td_syntax.specs.Text.{Parses};
ghost use Rattle.td_syntax.specs.Views.{module_view};

use crate::fault::{Fault, FaultKind};
use crate::lexer::MAX_TEXT;
use crate::parser::Parser;
use crate::syntax::Module;
use std::alloc::Global;

#[tactic(auto, unfolding(crate::specs::FirstFault::syntax_of))]
fn parsed<'a>(alloc: Global, text: &'a [u8]) -> Result<Module<'a>, Fault<'a>>
    ensures { Gives module_view result (syntax_of text.now) }
{
    if MAX_TEXT < text.len() {
        return Err(Fault {
            kind: FaultKind::TooMany,
            line: 1,
        });
    }
    Parser::new(text).module(alloc)
}

/// The module that the text is.
pub fn parse<'a>(alloc: Global, text: &'a [u8]) -> Result<Module<'a>, Fault<'a>>
    // What is read is derived by the grammar.
    ensures found { IfOk result (λ m. Parses text.now (module_view m)) }
    // What the grammar derives is read, unless memory runs out.
    ensures only { (m : grammar.Module) → Parses text.now m → Gives module_view result (Ok m) }
    // Which fault it is.
    ensures exact { Gives module_view result (syntax_of text.now) }
{
    parsed(alloc, text)
}
