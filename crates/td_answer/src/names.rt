//! Names as reports print them.

ghost use Rattle.std.specs.Prelude.{◌≡◌, IfOk};
ghost use Rattle.td_nets.specs.Views.{name_of};
ghost use Rattle.td_answer.specs.Names.{label};

use std::alloc::{AllocError, Global};
use td_lines::Label;
use td_nets::Name;

/// A name as reports print it. Names are ASCII; of other bytes, what isn't UTF-8 becomes the
/// replacement character.
pub(crate) fn label(alloc: Global, name: &Name) -> Result<Label, AllocError>
    ensures { IfOk result (λ printed. printed ≡ label (name_of name.now)) }
{
    let mut text = Vec::new(alloc);
    name.print(&mut text)?;
    let text = String::from_utf8_lossy(alloc, &text)?;
    Ok(Label::new(text))
}
