//! Reads statements of gates.

ghost use Rattle.std.specs.Prelude.{◌≡◌, map, is_some};
ghost use Rattle.td_syntax.specs.Grammar.{has_many_outputs};
ghost use Rattle.td_syntax.specs.Faults.{Gives, reported};
ghost use Rattle.td_syntax.specs.Views.{placed_view, numeral_view, delay_view, option_delay_view, terminal_view, step_view, instance_view, statement_view};
ghost use Rattle.td_syntax.specs.Readers.{many};
ghost use Rattle.td_syntax.specs.Parsing.{steps_at, second_at, close_at, bracketed_at, delay_at, output_at, begin_terminal, more_terminals, terminal_end, bit_at, selected_at, terminal_step, opening_refusal, opening_at, instance_at, instance_step, statement_at};

use crate::delay::{MAX_DELAY, steps_of};
use crate::fault::{Fault, FaultKind};
use crate::parser::{Parser, base_of, fault, is_mark, number_of, refused, refused_name};
use crate::step::Step;
use crate::syntax::{Delay, Instance, Statement, Terminal};
use crate::token::{Number, Placed, Symbol};
use std::alloc::Global;
use td_gates::Kind;

/// The greatest number of terminals of an instance.
const MAX_TERMINALS: usize = 1_024;

/// Whether instances of this kind have many outputs and one input.
fn has_many_outputs(kind: Kind) -> bool
    ensures { result ≡ has_many_outputs kind }
{
    matches!(kind, Kind::Buf | Kind::Not)
}

/// What stands in place of the `(` of an instance. A range after its name is outside the subset.
fn opening_refused<'a>(named: bool, placed: Placed<'a>) -> Fault<'a>
    ensures kind { reported result.kind ≡ Some (opening_refusal named (placed_view placed.entry)).kind }
    ensures line { result.line ≡ placed.entry.line }
{
    if named && is_mark(Symbol::LeftBracket, placed.token) {
        fault(FaultKind::OutOfSubset(b"["), placed.line)
    } else {
        refused(placed)
    }
}

impl<'a> Parser<'a> {
    // ---- delays

    /// A whole number of steps, from 1 to the greatest delay, where a unit has 10 to the power of
    /// `tens` steps.
    #[tactic(auto, unfolding(crate::specs::Parsing::steps_at))]
    fn steps(&mut self, tens: u8) -> Result<Number<'a>, Fault<'a>>
        ensures { Gives (λ n. (numeral_view n, self.new)) result (steps_at tens self.old) }
    {
        let placed = self.next()?;
        let Some(number) = number_of(placed) else {
            return Err(refused_name(placed));
        };
        match steps_of(tens, number) {
            None => Err(fault(FaultKind::DelayTooFine, placed.line)),
            Some(0) => Err(fault(FaultKind::ZeroDelay, placed.line)),
            Some(1..=MAX_DELAY) => Ok(number),
            Some(_) => Err(fault(FaultKind::DelayTooLarge, placed.line)),
        }
    }

    /// Whether a second value follows the first within brackets.
    #[tactic(auto, unfolding(crate::specs::Parsing::second_at))]
    fn has_second(&mut self) -> Result<bool, Fault<'a>>
        ensures { Gives (λ more. (more, self.new)) result (second_at self.old) }
    {
        let placed = self.next()?;
        if is_mark(Symbol::Comma, placed.token) {
            Ok(true)
        } else if is_mark(Symbol::Close, placed.token) {
            Ok(false)
        } else {
            Err(refused_name(placed))
        }
    }

    /// The bracket after two values. A third value is outside the subset.
    #[tactic(auto, unfolding(crate::specs::Parsing::close_at))]
    fn close_delay(&mut self) -> Result<(), Fault<'a>>
        ensures { Gives (λ _. self.new) result (close_at self.old) }
    {
        let placed = self.next()?;
        if is_mark(Symbol::Close, placed.token) {
            Ok(())
        } else if is_mark(Symbol::Comma, placed.token) {
            Err(fault(FaultKind::OutOfSubset(b","), placed.line))
        } else {
            Err(refused_name(placed))
        }
    }

    /// The value or values after `#(`.
    #[tactic(auto, unfolding(crate::specs::Parsing::bracketed_at))]
    fn bracketed(&mut self, tens: u8) -> Result<Delay<'a>, Fault<'a>>
        ensures { Gives (λ d. (delay_view d, self.new)) result (bracketed_at tens self.old) }
    {
        let first = self.steps(tens)?;
        if self.has_second()? {
            let second = self.steps(tens)?;
            self.close_delay()?;
            Ok(Delay::Pair(first, second))
        } else {
            Ok(Delay::Single(first))
        }
    }

    #[tactic(auto, unfolding(crate::specs::Parsing::delay_at))]
    fn delay(&mut self, tens: u8) -> Result<Option<Delay<'a>>, Fault<'a>>
        ensures { Gives (λ d. (option_delay_view d, self.new)) result (delay_at tens self.old) }
    {
        if !self.maybe_mark(Symbol::Hash)? {
            Ok(None)
        } else if self.maybe_mark(Symbol::Open)? {
            Ok(Some(self.bracketed(tens)?))
        } else {
            Ok(Some(Delay::Plain(self.steps(tens)?)))
        }
    }

    // ---- terminals

    /// A terminal that drives. No constant does.
    #[tactic(auto, unfolding(crate::specs::Parsing::output_at))]
    fn output(&mut self, line: u32, terminal: Terminal<'a>) -> Result<(), Fault<'a>>
        ensures { Gives (λ _. self.new) result (output_at line (terminal_view terminal.entry) self.old) }
    {
        match terminal {
            Terminal::Whole(_) | Terminal::Select(_, _) => self.count_gate(line),
            Terminal::Level(_) => Err(fault(FaultKind::Syntax, line)),
        }
    }

    /// The terminal with this number begins on this line. The first is an output.
    #[tactic(auto, unfolding(crate::specs::Parsing::begin_terminal))]
    fn begin_terminal(
        &mut self,
        place: usize,
        line: u32,
        terminal: Terminal<'a>,
    ) -> Result<(), Fault<'a>>
        ensures { Gives (λ _. self.new) result (begin_terminal place line (terminal_view terminal.entry) self.old) }
    {
        if MAX_TERMINALS <= place {
            Err(fault(FaultKind::TooMany, line))
        } else if place == 0 {
            self.output(line, terminal)
        } else {
            Ok(())
        }
    }

    /// The terminal before a comma isn't the last one, so that of a `buf` or a `not` is an output.
    #[tactic(auto, unfolding(crate::specs::Parsing::more_terminals))]
    fn more_terminals(
        &mut self,
        kind: Kind,
        place: usize,
        line: u32,
        terminal: Terminal<'a>,
    ) -> Result<(), Fault<'a>>
        ensures { Gives (λ _. self.new) result (more_terminals kind place line (terminal_view terminal.entry) self.old) }
    {
        if has_many_outputs(kind) && 0 < place {
            self.output(line, terminal)
        } else {
            Ok(())
        }
    }

    /// What follows a terminal that began on this line.
    #[tactic(auto, unfolding(crate::specs::Parsing::terminal_end, crate::specs::Parsing::end_terminals))]
    fn terminal_end(
        &mut self,
        kind: Kind,
        place: usize,
        line: u32,
        terminal: Terminal<'a>,
    ) -> Result<Step<Terminal<'a>>, Fault<'a>>
        ensures { Gives (λ x. (step_view terminal_view x, self.new)) result (terminal_end kind place line (terminal_view terminal.entry) self.old) }
    {
        let placed = self.next()?;
        if is_mark(Symbol::Comma, placed.token) {
            self.more_terminals(kind, place, line, terminal)?;
            Ok(Step::More(terminal))
        } else if !is_mark(Symbol::Close, placed.token) {
            Err(refused(placed))
        } else if place == 0 {
            Err(fault(FaultKind::Syntax, placed.line))
        } else {
            Ok(Step::Final(terminal))
        }
    }

    /// The number of a bit, after its `[`.
    #[tactic(auto, unfolding(crate::specs::Parsing::bit_at))]
    fn bit(&mut self) -> Result<&'a [u8], Fault<'a>>
        ensures { Gives (λ n. (n.now, self.new)) result (bit_at self.old) }
    {
        let digits = self.whole()?;
        self.mark(Symbol::RightBracket)?;
        Ok(digits)
    }

    /// A bit may follow a name.
    #[tactic(auto, unfolding(crate::specs::Parsing::selected_at))]
    fn selected(&mut self, base: Terminal<'a>) -> Result<Terminal<'a>, Fault<'a>>
        ensures { Gives (λ t. (terminal_view t, self.new)) result (selected_at (terminal_view base.entry) self.old) }
    {
        match base {
            Terminal::Whole(name) => {
                if self.maybe_mark(Symbol::LeftBracket)? {
                    Ok(Terminal::Select(name, self.bit()?))
                } else {
                    Ok(base)
                }
            }
            Terminal::Select(_, _) | Terminal::Level(_) => Ok(base),
        }
    }

    #[tactic(auto, unfolding(crate::specs::Parsing::terminal_step))]
    fn terminal_step(&mut self, kind: Kind, place: usize) -> Result<Step<Terminal<'a>>, Fault<'a>>
        ensures { Gives (λ x. (step_view terminal_view x, self.new)) result (terminal_step kind place self.old) }
    {
        let placed = self.next()?;
        let Some(base) = base_of(placed) else {
            return Err(refused(placed));
        };
        self.begin_terminal(place, placed.line, base)?;
        let terminal = self.selected(base)?;
        self.terminal_end(kind, place, placed.line, terminal)
    }

    /// After a `(`.
    fn terminals(&mut self, alloc: Global, kind: Kind) -> Result<Vec<Terminal<'a>>, Fault<'a>>
        ensures { Gives (λ x. (map terminal_view x.items, self.new)) result (many (terminal_step kind) self.old) }
    {
        let mut terminals = Vec::new(alloc);
        'terminals: loop {
            match self.terminal_step(kind, terminals.len())? {
                Step::More(terminal) => terminals.push(terminal)?,
                Step::Final(terminal) => {
                    terminals.push(terminal)?;
                    return Ok(terminals);
                }
                Step::Done => return Ok(terminals),
            }
        }
    }

    // ---- instances

    /// The `(` of an instance, which may have a name before it.
    #[tactic(auto, unfolding(crate::specs::Parsing::opening_at))]
    fn opening(&mut self, named: bool) -> Result<(), Fault<'a>>
        ensures { Gives (λ _. self.new) result (opening_at named self.old) }
    {
        let placed = self.next()?;
        if is_mark(Symbol::Open, placed.token) {
            Ok(())
        } else {
            Err(opening_refused(named, placed))
        }
    }

    #[tactic(auto, unfolding(crate::specs::Parsing::instance_at))]
    fn instance(&mut self, alloc: Global, kind: Kind) -> Result<Instance<'a>, Fault<'a>>
        ensures { Gives (λ i. (instance_view i, self.new)) result (instance_at kind self.old) }
    {
        let name = self.maybe_name()?;
        self.opening(name.is_some())?;
        let terminals = self.terminals(alloc, kind)?;
        Ok(Instance { name, terminals })
    }

    #[tactic(auto, unfolding(crate::specs::Parsing::instance_step))]
    fn instance_step(
        &mut self,
        alloc: Global,
        kind: Kind,
        place: usize,
    ) -> Result<Step<Instance<'a>>, Fault<'a>>
        ensures { Gives (λ x. (step_view instance_view x, self.new)) result (instance_step kind place self.old) }
    {
        let instance = self.instance(alloc, kind)?;
        if self.separator(Symbol::Semicolon)? {
            Ok(Step::More(instance))
        } else {
            Ok(Step::Final(instance))
        }
    }

    fn instances(&mut self, alloc: Global, kind: Kind) -> Result<Vec<Instance<'a>>, Fault<'a>>
        ensures { Gives (λ x. (map instance_view x.items, self.new)) result (many (instance_step kind) self.old) }
    {
        let mut instances = Vec::new(alloc);
        'instances: loop {
            match self.instance_step(alloc, kind, instances.len())? {
                Step::More(instance) => instances.push(instance)?,
                Step::Final(instance) => {
                    instances.push(instance)?;
                    return Ok(instances);
                }
                Step::Done => return Ok(instances),
            }
        }
    }

    /// After the word of the kind.
    #[tactic(auto, unfolding(crate::specs::Parsing::statement_at))]
    pub fn statement(
        &mut self,
        alloc: Global,
        tens: u8,
        attributes: usize,
        kind: Kind,
    ) -> Result<Statement<'a>, Fault<'a>>
        ensures { Gives (λ s. (statement_view s, self.new)) result (statement_at tens attributes kind self.old) }
    {
        let delay = self.delay(tens)?;
        let instances = self.instances(alloc, kind)?;
        Ok(Statement {
            attributes,
            kind,
            delay,
            instances,
        })
    }
}
