//! What a seat knows, and the rule of the word.
use atomic_table::{Join, Play, Split, TableRule};
use std::collections::LinkedList;

/// What a seat knows. No value of it is made.
pub struct View {
    /// The greatest word that it has seen.
    pub seen: u64,
    /// Its greatest offer, 0 before one.
    pub offer: u64,
    /// The numbers of the seats that it stands for.
    pub seats: LinkedList<u64>,
}

/// The rule of the word, which holds between any two steps: it is the greatest offer, 0 without
/// one.
pub struct Greatest;

impl TableRule<u8, View, u64> for Greatest {
    ghost use Rattle.td_incumbent.specs.Word.{Keeps, opening_view};

    ghost holds = { Keeps };

    ghost first = { opening_view };
}

/// The step of a seat that reads the word.
pub struct Look;

impl Play<u8, View> for Look {
    ghost use Rattle.td_incumbent.specs.Word.{Looks};

    ghost then = { Looks };
}

/// The step of a seat that raises the word to its offer, where the word is less.
pub struct Raise;

impl Play<u8, View> for Raise {
    ghost use Rattle.td_incumbent.specs.Word.{Raises};

    ghost then = { Raises };
}

/// Cuts off the seat that a view stands for first.
pub struct Deal;

impl Split<View> for Deal {
    ghost use Rattle.td_incumbent.specs.Word.{undealt, dealt_view};

    ghost left = { undealt };

    ghost right = { dealt_view };
}

/// Puts what a second view has seen, offered and stands for to a first, and leaves the second
/// spent.
pub struct Both;

impl Join<View> for Both {
    ghost use Rattle.td_incumbent.specs.Word.{joined, spent};

    ghost both = { joined };

    ghost spent = { spent };
}
