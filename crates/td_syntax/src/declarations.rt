//! Reads declarations and the port list.

ghost use Rattle.std.specs.Prelude.{◌≡◌, map};
ghost use Rattle.td_syntax.specs.Faults.{Gives};
ghost use Rattle.td_syntax.specs.Views.{placed_view, range_view, option_range_view, declaration_view, header_view, port_view, port_list_view, ports_view, step_view};
ghost use Rattle.td_syntax.specs.Readers.{many};
ghost use Rattle.td_syntax.specs.Parsing.{behind_wire, wire_at, limited_at, bounds_at, range_at, declaration_at, direction_at, header_at, headed_at, port_at, port_step, is_heading, listed_at, ports_at};

use crate::delay::decimal_value;
use crate::fault::{Fault, FaultKind};
use crate::parser::{Parser, direction_of, fault, is_attribute, is_mark, refused, whole_of};
use crate::step::Step;
use crate::syntax::{Declaration, Header, Port, Ports, Range, Role};
use crate::token::{Placed, Symbol};
use std::alloc::Global;

/// The greatest number of a range.
const MAX_BOUND: u32 = 1_000_000_000;

/// Whether a declared port begins so.
fn is_heading(placed: Placed<'_>) -> bool
    ensures { result ≡ is_heading (placed_view placed.entry) }
{
    is_attribute(placed).is_some() || direction_of(placed).is_some()
}

impl<'a> Parser<'a> {
    // ---- declarations

    /// After `wire`, a strength or a delay is outside the subset.
    #[tactic(auto, unfolding(crate::specs::Parsing::behind_wire))]
    fn behind_wire(&self) -> Result<(), Fault<'a>>
        ensures { Gives (λ _. self.now) result (behind_wire self.now) }
    {
        let placed = self.peek()?;
        if is_mark(Symbol::Open, placed.token) {
            Err(fault(FaultKind::OutOfSubset(b"("), placed.line))
        } else if is_mark(Symbol::Hash, placed.token) {
            Err(fault(FaultKind::OutOfSubset(b"#"), placed.line))
        } else {
            Ok(())
        }
    }

    /// Whether `wire` follows `input` or `output`.
    #[tactic(auto, unfolding(crate::specs::Parsing::wire_at))]
    fn wire(&mut self, role: Role) -> Result<bool, Fault<'a>>
        ensures { Gives (λ w. (w, self.new)) result (wire_at role self.old) }
    {
        match role {
            Role::Wire => {
                self.behind_wire()?;
                Ok(false)
            }
            Role::Input | Role::Output => match self.maybe_wire()? {
                None => Ok(false),
                Some(()) => {
                    self.behind_wire()?;
                    Ok(true)
                }
            },
        }
    }

    /// A number of a range, within its limit.
    #[tactic(auto, unfolding(crate::specs::Parsing::limited_at))]
    fn limited(&mut self) -> Result<&'a [u8], Fault<'a>>
        ensures { Gives (λ n. (n.now, self.new)) result (limited_at self.old) }
    {
        let placed = self.next()?;
        let Some(digits) = whole_of(placed) else {
            return Err(refused(placed));
        };
        if MAX_BOUND < decimal_value(digits) {
            Err(fault(FaultKind::TooMany, placed.line))
        } else {
            Ok(digits)
        }
    }

    /// After the `[` of a range.
    #[tactic(auto, unfolding(crate::specs::Parsing::bounds_at))]
    fn bounds(&mut self) -> Result<Range<'a>, Fault<'a>>
        ensures { Gives (λ r. (range_view r, self.new)) result (bounds_at self.old) }
    {
        let left = self.limited()?;
        self.mark(Symbol::Colon)?;
        let right = self.limited()?;
        self.mark(Symbol::RightBracket)?;
        Ok(Range { left, right })
    }

    /// The range, if there is one.
    #[tactic(auto, unfolding(crate::specs::Parsing::range_at))]
    fn range(&mut self) -> Result<Option<Range<'a>>, Fault<'a>>
        ensures { Gives (λ r. (option_range_view r, self.new)) result (range_at self.old) }
    {
        if self.maybe_mark(Symbol::LeftBracket)? {
            Ok(Some(self.bounds()?))
        } else {
            Ok(None)
        }
    }

    /// After the word of the role.
    #[tactic(auto, unfolding(crate::specs::Parsing::declaration_at))]
    pub fn declaration(
        &mut self,
        alloc: Global,
        attributes: usize,
        role: Role,
    ) -> Result<Declaration<'a>, Fault<'a>>
        ensures { Gives (λ d. (declaration_view d, self.new)) result (declaration_at attributes role self.old) }
    {
        let wire = self.wire(role)?;
        let range = self.range()?;
        let names = self.names(alloc, Symbol::Semicolon)?;
        Ok(Declaration {
            attributes,
            role,
            wire,
            range,
            names,
        })
    }

    // ---- ports

    #[tactic(auto, unfolding(crate::specs::Parsing::direction_at, crate::specs::Readers::take_at))]
    fn direction(&mut self) -> Result<Role, Fault<'a>>
        ensures { Gives (λ r. (r, self.new)) result (direction_at self.old) }
    {
        let placed = self.next()?;
        match direction_of(placed) {
            Some(role) => Ok(role),
            None => Err(refused(placed)),
        }
    }

    #[tactic(auto, unfolding(crate::specs::Parsing::header_at))]
    fn header(&mut self) -> Result<Header<'a>, Fault<'a>>
        ensures { Gives (λ h. (header_view h, self.new)) result (header_at self.old) }
    {
        let attributes = self.attributes()?;
        let role = self.direction()?;
        let wire = self.wire(role)?;
        let range = self.range()?;
        let name = self.name()?;
        Ok(Header {
            attributes,
            role,
            wire,
            range,
            name,
        })
    }

    #[tactic(auto, unfolding(crate::specs::Parsing::headed_at))]
    fn headed(&mut self) -> Result<Port<'a>, Fault<'a>>
        ensures { Gives (λ p. (port_view p, self.new)) result (headed_at self.old) }
    {
        Ok(Port::Headed(self.header()?))
    }

    /// The first port is no bare name.
    #[tactic(auto, unfolding(crate::specs::Parsing::port_at))]
    fn port(&mut self, place: usize) -> Result<Port<'a>, Fault<'a>>
        ensures { Gives (λ p. (port_view p, self.new)) result (port_at place self.old) }
    {
        if place == 0 {
            return self.headed();
        }
        match self.maybe_name()? {
            Some(name) => Ok(Port::Bare(name)),
            None => self.headed(),
        }
    }

    #[tactic(auto, unfolding(crate::specs::Parsing::port_step))]
    fn port_step(&mut self, place: usize) -> Result<Step<Port<'a>>, Fault<'a>>
        ensures { Gives (λ x. (step_view port_view x, self.new)) result (port_step place self.old) }
    {
        let port = self.port(place)?;
        if self.separator(Symbol::Close)? {
            Ok(Step::More(port))
        } else {
            Ok(Step::Final(port))
        }
    }

    /// Declared ports, up to the `)`.
    fn declared_ports(&mut self, alloc: Global) -> Result<Vec<Port<'a>>, Fault<'a>>
        ensures { Gives (λ x. (map port_view x.items, self.new)) result (many port_step self.old) }
    {
        let mut ports = Vec::new(alloc);
        'ports: loop {
            match self.port_step(ports.len())? {
                Step::More(port) => ports.push(port)?,
                Step::Final(port) => {
                    ports.push(port)?;
                    return Ok(ports);
                }
                Step::Done => return Ok(ports),
            }
        }
    }

    /// The ports: at least one.
    #[tactic(auto, unfolding(crate::specs::Parsing::listed_at))]
    fn listed(&mut self, alloc: Global) -> Result<Ports<'a>, Fault<'a>>
        ensures { Gives (λ p. (port_list_view p, self.new)) result (listed_at self.old) }
    {
        if is_heading(self.peek()?) {
            Ok(Ports::Declared(self.declared_ports(alloc)?))
        } else {
            Ok(Ports::Names(self.names(alloc, Symbol::Close)?))
        }
    }

    /// The port list, if there is one.
    #[tactic(auto, unfolding(crate::specs::Parsing::ports_at))]
    pub fn ports(&mut self, alloc: Global) -> Result<Option<Ports<'a>>, Fault<'a>>
        ensures { Gives (λ p. (ports_view p, self.new)) result (ports_at self.old) }
    {
        if !self.maybe_mark(Symbol::Open)? {
            Ok(None)
        } else if self.maybe_mark(Symbol::Close)? {
            Ok(Some(Ports::Names(Vec::new(alloc))))
        } else {
            Ok(Some(self.listed(alloc)?))
        }
    }
}
