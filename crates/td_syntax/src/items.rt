//! Reads the module of a text.

ghost use Rattle.std.specs.Prelude.{map};
ghost use Rattle.td_syntax.specs.Faults.{Gives};
ghost use Rattle.td_syntax.specs.Views.{placed_view, step_view, item_view, module_view};
ghost use Rattle.td_syntax.specs.Readers.{many};
ghost use Rattle.td_syntax.specs.Parsing.{item_word, item_step, module_at};

use crate::directives::unit_exponent;
use crate::fault::Fault;
use crate::parser::{Parser, keyword_of, refused, refused_name};
use crate::step::Step;
use crate::syntax::{Item, Module, Role};
use crate::token::{Placed, Symbol};
use std::alloc::Global;
use td_nets::Keyword;

impl<'a> Parser<'a> {
    /// An item that begins with this word, or the end of the items.
    fn item_word(
        &mut self,
        alloc: Global,
        tens: u8,
        attributes: usize,
        placed: Placed<'a>,
        keyword: Keyword,
    ) -> Result<Step<Item<'a>>, Fault<'a>>
        ensures { Gives (λ x. (step_view item_view x, self.new)) result (item_word tens attributes (placed_view placed.entry) self.old keyword) }
    {
        match keyword {
            Keyword::Input => Ok(Step::More(Item::Declares(self.declaration(
                alloc,
                attributes,
                Role::Input,
            )?))),
            Keyword::Output => Ok(Step::More(Item::Declares(self.declaration(
                alloc,
                attributes,
                Role::Output,
            )?))),
            Keyword::Wire => Ok(Step::More(Item::Declares(self.declaration(
                alloc,
                attributes,
                Role::Wire,
            )?))),
            Keyword::Gate(kind) => Ok(Step::More(Item::Gates(self.statement(
                alloc, tens, attributes, kind,
            )?))),
            Keyword::EndModule => {
                if attributes == 0 {
                    Ok(Step::Done)
                } else {
                    Err(refused(placed))
                }
            }
            Keyword::Module => Err(refused(placed)),
        }
    }

    #[tactic(auto, unfolding(crate::specs::Parsing::item_step))]
    fn item_step(
        &mut self,
        alloc: Global,
        tens: u8,
        place: usize,
    ) -> Result<Step<Item<'a>>, Fault<'a>>
        ensures { Gives (λ x. (step_view item_view x, self.new)) result (item_step tens place self.old) }
    {
        let attributes = self.attributes()?;
        let placed = self.next()?;
        match keyword_of(placed) {
            Some(keyword) => self.item_word(alloc, tens, attributes, placed, keyword),
            None => Err(refused_name(placed)),
        }
    }

    /// The items up to `endmodule`, where a unit of time has 10 to the power of `tens` steps.
    fn items(&mut self, alloc: Global, tens: u8) -> Result<Vec<Item<'a>>, Fault<'a>>
        ensures { Gives (λ x. (map item_view x.items, self.new)) result (many (item_step tens) self.old) }
    {
        let mut items = Vec::new(alloc);
        'items: loop {
            match self.item_step(alloc, tens, items.len())? {
                Step::More(item) => items.push(item)?,
                Step::Final(item) => {
                    items.push(item)?;
                    return Ok(items);
                }
                Step::Done => return Ok(items),
            }
        }
    }

    /// The one module of a text.
    #[tactic(auto, unfolding(crate::specs::Parsing::module_at))]
    pub fn module(&mut self, alloc: Global) -> Result<Module<'a>, Fault<'a>>
        ensures { Gives (λ m. (module_view m, self.new)) result (module_at self.old) }
    {
        let fronts = self.fronts(alloc)?;
        let name = self.name()?;
        let ports = self.ports(alloc)?;
        self.mark(Symbol::Semicolon)?;
        let items = self.items(alloc, unit_exponent(&fronts))?;
        let behind = self.directives(alloc)?;
        self.end()?;
        Ok(Module {
            fronts,
            name,
            ports,
            items,
            behind,
        })
    }
}
