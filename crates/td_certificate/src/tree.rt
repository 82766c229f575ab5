//! Trees of splits and leaves, kept as their nodes in pre-order.

ghost use Rattle.std.specs.Prelude.{◌≡◌, Some};
ghost use Rattle.td_certificate.specs.Trees.{IsTree, sides, is_of_edges, names_edges, has_edges, is_refuted, has_refuted};
ghost use Rattle.td_certificate.specs.Text.{letter};

use crate::refuting::Refuted;
use std::fmt;
use std::marker::Model;

/// The domain that bounds a leaf: arrival windows, possible levels, or both at once; edges, or
/// edges and possible levels at once.
#[derive(Clone, Copy, Debug, PartialEq, Eq, Drop)]
pub enum BoundedBy {
    Arrival,
    Possible,
    Both,
    Edges,
    EdgesAndPossible,
}

impl BoundedBy {
    /// Whether it is edges, or edges and another domain at once.
    pub fn is_of_edges(self) -> bool
        ensures { result ≡ is_of_edges self }
    {
        match self {
            BoundedBy::Edges | BoundedBy::EdgesAndPossible => true,
            BoundedBy::Arrival | BoundedBy::Possible | BoundedBy::Both => false,
        }
    }
}

/// A node of a tree: a split at a position of its cube, a leaf with a domain's bound of its cube, a
/// leaf of one pair with that pair's delay, a leaf in whose cube no admitted pair lies, or a leaf
/// of which steps show a bound, or that no admitted pair lies in its cube. Bounds and delays are in
/// steps.
#[derive(Debug, Drop)]
pub enum Node {
    Split(u64),
    Bound(BoundedBy, u64),
    Point(u64),
    Empty,
    Refuted(Refuted),
}

impl Node {
    /// How many subtrees come below the node.
    pub fn sides(&self) -> u64
        ensures { result ≡ sides self.now }
    {
        match self {
            Node::Split(_) => 2,
            Node::Bound(_, _) | Node::Point(_) | Node::Empty | Node::Refuted(_) => 0,
        }
    }

    /// Whether the node is a leaf that is bounded by edges.
    pub fn names_edges(&self) -> bool
        ensures { result ≡ names_edges self.now }
    {
        match self {
            Node::Bound(domain, _) => domain.is_of_edges(),
            Node::Split(_) | Node::Point(_) | Node::Empty | Node::Refuted(_) => false,
        }
    }

    /// Whether the node is a leaf with a bound that steps show.
    pub fn is_refuted(&self) -> bool
        ensures { result ≡ is_refuted self.now }
    {
        matches!(self, Node::Refuted(_))
    }
}

impl fmt::Display for BoundedBy {
    ghost output = { λ domain. Some (letter domain) };

    fn fmt<W: fmt::Write>(&self, f: &mut fmt::Formatter<W>) -> fmt::Result {
        match self {
            BoundedBy::Arrival => write!(f, "a"),
            BoundedBy::Possible => write!(f, "t"),
            BoundedBy::Both => write!(f, "m"),
            BoundedBy::Edges => write!(f, "e"),
            BoundedBy::EdgesAndPossible => write!(f, "n"),
        }
    }
}

/// A tree, kept as its nodes in the order of their lines: the node of a split, then its zero side,
/// then its one side.
#[derive(Debug, Drop)]
pub struct Tree {
    nodes: Vec<Node>,
}

impl Model for Tree {
    ghost use Rattle.std.specs.Prelude.{List};
    ghost use Rattle.td_certificate.specs.declared.tree.Node.{Node};
    ghost use Rattle.td_certificate.specs.Trees.{IsTree};

    ghost Value = { List Node };

    ghost view = { λ inside. inside.nodes.items };

    ghost invariant = { λ inside. IsTree inside.nodes.items };
}

impl Tree {
    /// The tree of these nodes, which are one tree's in their order.
    pub fn from_nodes(nodes: Vec<Node>) -> Tree
        requires { IsTree nodes.items }
        ensures { result ≡ nodes.items }
    {
        Tree { nodes }
    }

    /// The nodes, each split before its zero side and that before its one side.
    pub fn nodes(&self) -> &[Node]
        ensures nodes { result.now ≡ self.now }
        ensures tree { IsTree self.now }
    {
        &self.nodes
    }

    /// Whether some leaf is bounded by edges.
    pub fn has_edges(&self) -> bool
        ensures { result ≡ has_edges self.now }
    {
        self.nodes.iter().any(|node| node.names_edges())
    }

    /// Whether some leaf is refuted.
    pub fn has_refuted(&self) -> bool
        ensures { result ≡ has_refuted self.now }
    {
        self.nodes.iter().any(|node| node.is_refuted())
    }

    /// The nodes, without a copy.
    pub fn into_nodes(self) -> Vec<Node>
        ensures nodes { result.items ≡ self }
        ensures tree { IsTree self }
    {
        self.nodes
    }
}
