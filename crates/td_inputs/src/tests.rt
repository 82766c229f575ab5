//! Numbers, names and words by place.

use crate::labels::{Label, labels_of};
use crate::numbers::number;
use crate::placing::{Given, places};
use crate::sayings::{WordFault, has};
use crate::scanning::{Taken, parted};
use crate::topic::Topic;
use crate::words::{ByPlace, with_options, with_words};
use std::alloc::{AllocError, Global};
use std::test::*;
use td_nets::Name;

/// Numbers as Verilog spells them.
#[test]
fn spells_numbers(rt: HostRuntime) -> Result<(), Fail> {
    assert_eq!(rt; number(8, b"8'hff"), Some(255));
    assert_eq!(rt; number(8, b"'b1010_1010"), Some(170));
    assert_eq!(rt; number(8, b"12"), Some(12));
    assert_eq!(rt; number(8, b"4'hf"), None);
    assert_eq!(rt; number(8, b"8'b12"), None);
    assert_eq!(rt; number(8, b"_1"), None);
    Ok(())
}

/// Nothing that is given by place.
const NOTHING: Given<'static> = Given {
    first: None,
    second: None,
    hold: None,
    at: None,
};

/// A name, with a bit or without one.
fn name(alloc: Global, text: &[u8], bit: Option<u32>) -> Result<Name, AllocError> {
    let mut copy = Vec::new(alloc);
    copy.extend_from_slice(text)?;
    Ok(Name { text: copy, bit })
}

/// The names of two bits of a vector and of a scalar after them.
fn three(alloc: Global) -> Result<Vec<Label>, AllocError> {
    let mut names = Vec::new(alloc);
    names.push(name(alloc, b"v", Some(1))?)?;
    names.push(name(alloc, b"v", Some(0))?)?;
    names.push(name(alloc, b"a", None)?)?;
    labels_of(alloc, &names)
}

/// Options by name, by place, and the words that are neither.
#[test]
fn parts_words(rt: HostRuntime) -> Result<(), Fail> {
    let words = ["t", "sim", "--pin", "a=1", "--first", "0", "--", "--pin"];
    let scan = parted(rt.alloc(), &words)?;
    assert!(rt; has(Topic::Pin, &scan.taken));
    let plain = with_words(rt.alloc(), &scan.rest, &scan.given)?;
    assert_eq!(rt; plain.len(), 6);
    Ok(())
}

/// Conditions on nets stand among options by name, in order, and leave the words by place as they
/// are.
#[test]
fn keeps_conditions(rt: HostRuntime) -> Result<(), Fail> {
    let words = ["t", "sim", "--keep", "a=1.", "--pin", "a=1", "--keep=a=="];
    let scan = parted(rt.alloc(), &words)?;
    assert_eq!(rt; scan.taken.len(), 3);
    assert!(rt; has(Topic::Keep, &scan.taken));
    assert!(rt; is_keep(scan.taken.first(), b"a=1."));
    assert!(rt; is_keep(scan.taken.last(), b"a=="));
    assert_eq!(rt; scan.rest.len(), 2);
    let alone = placed(rt.alloc(), "--keep", "b=11", NOTHING)?;
    assert!(rt; alone.as_str() == "/t/sim");
    Ok(())
}

/// Whether this is a condition with such a text.
fn is_keep(taken: Option<&Taken<'_>>, text: &[u8]) -> bool {
    match taken {
        Some(
            Taken {
                topic: Topic::Keep,
                text: found,
            },
        ) => *found == text,
        _ => false,
    }
}

/// The words by place of what one option by name says, each with a slash before it; or what is
/// wrong.
fn placed(alloc: Global, option: &str, word: &str, given: Given<'_>) -> Result<String, AllocError> {
    let labels = three(alloc)?;
    let words = ["t", "sim", option, word];
    let scan = parted(alloc, &words)?;
    match places(alloc, &labels, &scan.taken, given)? {
        Ok(Some(options)) => joined(alloc, &scan.rest, options),
        Ok(None) => String::from_str(alloc, "unread"),
        Err(fault) => String::from_str(alloc, fault_word(fault)),
    }
}

/// Words with these options, with a slash before each.
fn joined(alloc: Global, rest: &[&str], options: ByPlace) -> Result<String, AllocError> {
    let all = with_options(alloc, rest, options)?;
    let mut text = String::new(alloc);
    for word in &all {
        text.push_str("/")?;
        text.push_str(word.as_str())?;
    }
    Ok(text)
}

/// A word for what is wrong.
fn fault_word(fault: WordFault<'_>) -> &'static str {
    match fault {
        WordFault::Bad(..) => "bad",
        WordFault::NoInput(_) => "no input",
        WordFault::Clash(..) => "clash",
        WordFault::TwoForms => "two forms",
    }
}

/// A pin of a vector.
#[test]
fn places_pins(rt: HostRuntime) -> Result<(), Fail> {
    let text = placed(rt.alloc(), "--pin", "v=2", NOTHING)?;
    assert!(rt; text.as_str() == "/t/sim/--first/10./--second/10.");
    Ok(())
}

/// An input that is held.
#[test]
fn places_holds(rt: HostRuntime) -> Result<(), Fail> {
    let text = placed(rt.alloc(), "--hold-input", "a", NOTHING)?;
    assert!(rt; text.as_str() == "/t/sim/--hold/..=");
    Ok(())
}

/// A moment.
#[test]
fn places_moments(rt: HostRuntime) -> Result<(), Fail> {
    let text = placed(rt.alloc(), "--at", "v[0]=2", NOTHING)?;
    assert!(rt; text.as_str() == "/t/sim/--at/0,2,0");
    Ok(())
}

/// A number that doesn't fit, and a name that no input has.
#[test]
fn refuses_words(rt: HostRuntime) -> Result<(), Fail> {
    let wide = placed(rt.alloc(), "--pin", "v=4", NOTHING)?;
    assert!(rt; wide.as_str() == "bad");
    let unknown = placed(rt.alloc(), "--pin", "b=1", NOTHING)?;
    assert!(rt; unknown.as_str() == "no input");
    Ok(())
}

/// A pin that contradicts a word by place.
#[test]
fn refuses_clashes(rt: HostRuntime) -> Result<(), Fail> {
    let given = Given {
        first: Some("..0"),
        second: None,
        hold: None,
        at: None,
    };
    let text = placed(rt.alloc(), "--pin", "a=1", given)?;
    assert!(rt; text.as_str() == "clash");
    Ok(())
}
