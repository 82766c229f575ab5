//! The nodes of a search that has ended, as nodes of a certificate's tree.

ghost use Rattle.std.specs.Prelude.{◌≡◌, ◌+◌, ◌^◌, ◌<◌, ◌≤◌, max, ◌∷◌, ◌++◌, [], length, vec_capacity};
ghost use Rattle.td_certificate.specs.Trees.{IsTree};
ghost use Rattle.td_search.specs.Folding.{bound_at, bound_before, sides_of, passed_over, folded_line, folded};
ghost use Rattle.td_search.specs.Listed.{certificate_node, certificate_nodes};
ghost use Rattle.td_search.specs.Problems.{strongest};

use crate::strategy::Strategy;
use td_book::{BoundedBy, Mark, Node, State};
use td_certificate::{Node as CertificateNode, Tree};

// The certificate's node for one that is split or closed.
fn certificate_node(state: State) -> CertificateNode
    ensures { result ≡ certificate_node state }
{
    match state {
        State::Split(position) => CertificateNode::Split(u64::from(position)),
        State::Closed(Mark::Bound(domain), bound, _) => CertificateNode::Bound(domain, bound),
        State::Closed(Mark::Point, time, _) => CertificateNode::Point(time),
        State::Closed(Mark::Empty, _, _) => CertificateNode::Empty,
        State::Open | State::Held(_, _) => CertificateNode::Point(0),
    }
}

/// The certificate's nodes for some that are all split or closed, in an empty vector that has room
/// for them.
pub fn certificate_nodes(space: Vec<CertificateNode>, nodes: &[Node]) -> Vec<CertificateNode>
    requires empty { space.items ≡ [] }
    requires spacious { length nodes.now ≤ vec_capacity space }
    ensures { result.items ≡ certificate_nodes nodes.now }
{
    let mut lines = space;
    for node in nodes {
        lines.push_reserved(certificate_node(node.state));
    }
    lines
}

/// How a tree is folded: under an upper figure, with the strongest domain and, by the number of
/// each node, its bound of the cube of the node's parent, or of the root.
#[derive(Clone, Copy, Drop)]
pub struct Fold<'a> {
    pub bounds: &'a [u64],
    pub domain: BoundedBy,
    pub high: u64,
}

/// The strongest domain by which a strategy bounds cubes.
pub fn strongest(strategy: Strategy) -> BoundedBy
    ensures { result ≡ strongest strategy }
{
    match strategy {
        Strategy::Least => BoundedBy::Both,
        Strategy::Lead => BoundedBy::EdgesAndPossible,
    }
}

// How many trees come below a node.
fn sides_of(state: State) -> u64
    ensures { result ≡ sides_of state }
{
    match state {
        State::Split(_) => 2,
        State::Open | State::Held(_, _) | State::Closed(_, _, _) => 0,
    }
}

impl Fold<'_> {
    // The bound at a node's number.
    fn bound_at(&self, number: u32) -> u64
        ensures { result ≡ bound_at self.now.bounds.now number }
    {
        match self.bounds.get(number as usize) {
            Some(bound) => *bound,
            None => 0,
        }
    }

    // The bound of a cube that was split, by its zero side, which is the first of the nodes after
    // it.
    fn bound_before(&self, nodes: &[Node]) -> u64
        ensures { result ≡ bound_before self.now.bounds.now nodes.now }
    {
        match nodes.first() {
            Some(node) => self.bound_at(node.number),
            None => 0,
        }
    }

    // The certificate's node for a node, and the bound of its cube, if that was split.
    fn line(&self, node: Node, own: u64) -> CertificateNode
        ensures { result ≡ folded_line self.now.domain self.now.high own (bound_at self.now.bounds.now node.number) node.state }
    {
        match node.state {
            State::Split(position) => {
                if own <= self.high {
                    CertificateNode::Bound(self.domain, own)
                } else {
                    CertificateNode::Split(u64::from(position))
                }
            }
            State::Open | State::Held(_, _) => {
                CertificateNode::Bound(self.domain, self.bound_at(node.number))
            }
            State::Closed(_, _, _) => certificate_node(node.state),
        }
    }

    // How many of the trees that come next are passed over after a node.
    fn passed_over(&self, state: State, own: u64) -> u64
        ensures { result ≡ passed_over self.now.high own state }
    {
        match state {
            State::Split(_) => { if own <= self.high { 2 } else { 0 } }
            State::Open | State::Held(_, _) | State::Closed(_, _, _) => 0,
        }
    }

    // Passes over a node, or appends its line, where so many of the trees that come next are passed
    // over. Answers how many are after it.
    fn step(
        &self,
        lines: &mut Vec<CertificateNode>,
        passed: u64,
        node: Node,
        others: &[Node],
    ) -> u64
        requires few { passed + 2 < 2 ^ 64 }
        requires spacious { length lines.old.items + 1 ≤ vec_capacity lines.old }
        ensures written { lines.new.items ++ folded self.now.bounds.now self.now.domain self.now.high result others.now
            ≡ lines.old.items ++ folded self.now.bounds.now self.now.domain self.now.high passed (node ∷ others.now) }
        ensures few { result ≤ max (passed + 1) 2 }
        ensures capacity { vec_capacity lines.new ≡ vec_capacity lines.old }
        ensures count { length lines.new.items ≤ length lines.old.items + 1 }
    {
        if passed > 0 {
            return passed - 1 + sides_of(node.state);
        }
        let own = self.bound_before(others);
        lines.push_reserved(self.line(node, own));
        self.passed_over(node.state, own)
    }

    // The certificate's nodes for some, where what is open is folded, in an empty vector that has
    // room for them.
    fn nodes(&self, space: Vec<CertificateNode>, nodes: &[Node]) -> Vec<CertificateNode>
        requires empty { space.items ≡ [] }
        requires spacious { length nodes.now ≤ vec_capacity space }
        ensures { result.items ≡ folded self.now.bounds.now self.now.domain self.now.high 0 nodes.now }
    {
        let mut lines = space;
        let mut passed = 0u64;
        let mut rest = nodes;
        while let Some((node, others)) = rest.split_first() {
            passed = self.step(&mut lines, passed, *node, others);
            rest = others;
        }
        lines
    }
}

/// The tree of the nodes of a search, where what is open is folded, in an empty vector that has
/// room for them. Takes no memory.
pub fn folded_tree(fold: Fold<'_>, space: Vec<CertificateNode>, nodes: &[Node]) -> Tree
    requires empty { space.items ≡ [] }
    requires spacious { length nodes.now ≤ vec_capacity space }
    requires tree { IsTree (folded fold.bounds.now fold.domain fold.high 0 nodes.now) }
    ensures { result ≡ folded fold.entry.bounds.now fold.entry.domain fold.entry.high 0 nodes.now }
{
    Tree::from_nodes(fold.nodes(space, nodes))
}
