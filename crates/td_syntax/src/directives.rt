//! Reads attributes and directives.

ghost use Rattle.std.specs.Prelude.{◌≡◌};
ghost use Rattle.td_syntax.specs.Faults.{Gives};
ghost use Rattle.td_syntax.specs.Views.{step_view};
ghost use Rattle.td_syntax.specs.Grammar.{unit_exponent};
ghost use Rattle.td_syntax.specs.Readers.{many};
ghost use Rattle.td_syntax.specs.Parsing.{attributes_at, directive_at, front_step, behind_step};

use crate::fault::{Fault, FaultKind};
use crate::parser::{Parser, fault, is_module, refused};
use crate::step::Step;
use crate::syntax::Front;
use crate::token::{Directive, Token, Unread};
use std::alloc::Global;

/// The power of ten of a step that a unit is, by the last `timescale: 0 without one.
pub fn unit_exponent(fronts: &[Front]) -> u8
    ensures { result ≡ unit_exponent fronts.now }
{
    let mut tens = 0;
    for front in fronts {
        if let Front::Directed(Directive::Timescale(timescale)) = front {
            tens = timescale.unit.saturating_sub(timescale.step);
        }
    }
    tens
}

impl<'a> Parser<'a> {
    /// How many attributes stand in front, which are taken.
    pub fn attributes(&mut self) -> Result<usize, Fault<'a>>
        ensures { Gives (λ n. (n, self.new)) result (attributes_at self.old) }
    {
        self.is_within();
        let mut count = 0;
        'attributes: loop {
            match self.maybe_attribute()? {
                Some(()) => count += 1,
                None => return Ok(count),
            }
        }
    }

    /// What a directive says that was in front on this line. Where its parts are cut, the text ends
    /// after it.
    #[tactic(auto, unfolding(crate::specs::Parsing::directive_at))]
    pub fn directive(
        &mut self,
        read: Result<Directive, Unread>,
        line: u32,
    ) -> Result<Directive, Fault<'a>>
        ensures { Gives (λ d. (d, self.new)) result (directive_at line read self.old) }
    {
        match read {
            Ok(directive) => Ok(directive),
            Err(Unread::Wrong) => Err(fault(FaultKind::Syntax, line)),
            Err(Unread::Short) => {
                let placed = self.next()?;
                Err(refused(placed))
            }
        }
    }

    /// An attribute, a directive or the word `module`.
    #[tactic(auto, unfolding(crate::specs::Parsing::front_step))]
    fn front_step(&mut self, place: usize) -> Result<Step<Front>, Fault<'a>>
        ensures { Gives (λ x. (step_view (λ f. f) x, self.new)) result (front_step place self.old) }
    {
        let placed = self.next()?;
        match placed.token {
            Token::Attribute => Ok(Step::More(Front::Attributed)),
            Token::Directive(read, _) => Ok(Step::More(Front::Directed(self.directive(
                read,
                placed.line,
            )?))),
            _ => match is_module(placed) {
                Some(()) => Ok(Step::Done),
                None => Err(refused(placed)),
            },
        }
    }

    /// What stands before the module, and its word.
    pub fn fronts(&mut self, alloc: Global) -> Result<Vec<Front>, Fault<'a>>
        ensures { Gives (λ x. (x.items, self.new)) result (many front_step self.old) }
    {
        let mut fronts = Vec::new(alloc);
        'fronts: loop {
            match self.front_step(fronts.len())? {
                Step::More(front) => fronts.push(front)?,
                Step::Final(front) => {
                    fronts.push(front)?;
                    return Ok(fronts);
                }
                Step::Done => return Ok(fronts),
            }
        }
    }

    /// After the module: a directive, if one is in front.
    #[tactic(auto, unfolding(crate::specs::Parsing::behind_step))]
    fn behind_step(&mut self, place: usize) -> Result<Step<Directive>, Fault<'a>>
        ensures { Gives (λ x. (step_view (λ d. d) x, self.new)) result (behind_step place self.old) }
    {
        if self.is_behind() {
            return Ok(Step::Done);
        }
        let placed = self.peek()?;
        match placed.token {
            Token::Directive(read, _) => {
                self.next()?;
                Ok(Step::More(self.directive(read, placed.line)?))
            }
            _ => Ok(Step::Done),
        }
    }

    /// The directives after the module.
    pub fn directives(&mut self, alloc: Global) -> Result<Vec<Directive>, Fault<'a>>
        ensures { Gives (λ x. (x.items, self.new)) result (many behind_step self.old) }
    {
        let mut directives = Vec::new(alloc);
        'directives: loop {
            match self.behind_step(directives.len())? {
                Step::More(directive) => directives.push(directive)?,
                Step::Final(directive) => {
                    directives.push(directive)?;
                    return Ok(directives);
                }
                Step::Done => return Ok(directives),
            }
        }
    }
}
