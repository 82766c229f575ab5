//! Conditions on nets in a command line.

use crate::line::asked;
use crate::words::Words;
use std::alloc::{AllocError, Global};
use std::test::*;
use td_inputs::{Taken, Topic};
use td_request::{Command, Request};

/// What a request says of inputs and nets by name, where its command has conditions on nets.
fn said<'a>(request: &Request<'a>) -> &'a [Taken<'a>] {
    match &request.command {
        Command::Worst(search) => search.question.inputs.named,
        Command::Parts(parts) => parts.question.inputs.named,
        Command::Join(join) => join.question.inputs.named,
        _ => &[],
    }
}

/// How many conditions on nets words ask for; none where the command line is bad.
fn conditions(alloc: Global, words: &[&str]) -> Result<Option<usize>, AllocError> {
    let words = Words::new(alloc, words)?;
    match asked(alloc, &words) {
        Ok(Some(request)) => Ok(Some(count(said(&request)))),
        Ok(None) | Err(_) => Ok(None),
    }
}

/// How many of these are conditions on nets.
fn count(named: &[Taken<'_>]) -> usize {
    let mut found = 0_usize;
    for taken in named {
        if taken.topic == Topic::Keep {
            found = found.saturating_add(1);
        }
    }
    found
}

/// The commands that search take any number of conditions, beside other words by name.
#[test]
fn takes_conditions(rt: HostRuntime) -> Result<(), Fail> {
    let alloc = rt.alloc();
    let worst = ["t", "worst", "a.v", "--keep", "n=1.", "--keep=m=="];
    assert_eq!(rt; conditions(alloc, &worst)?, Some(2));
    let pinned = ["t", "worst", "--pin", "a=1", "--keep", "n=11", "a.v"];
    assert_eq!(rt; conditions(alloc, &pinned)?, Some(1));
    let parts = ["t", "parts", "a.v", "--parts", "4", "--keep", "n=01"];
    assert_eq!(rt; conditions(alloc, &parts)?, Some(1));
    let join = ["t", "join", "a.v", "1.cert", "--keep", "n=01"];
    assert_eq!(rt; conditions(alloc, &join)?, Some(1));
    let without = ["t", "worst", "a.v"];
    assert_eq!(rt; conditions(alloc, &without)?, Some(0));
    Ok(())
}

/// Other commands take none, and the option has a word.
#[test]
fn refuses_conditions(rt: HostRuntime) -> Result<(), Fail> {
    let alloc = rt.alloc();
    let bound = ["t", "bound", "a.v", "--keep", "n=11"];
    assert_eq!(rt; conditions(alloc, &bound)?, None);
    let run = ["t", "sim", "a.v", "0", "1", "--keep", "n=11"];
    assert_eq!(rt; conditions(alloc, &run)?, None);
    let check = ["t", "check", "a.v", "1.cert", "--keep=n=11"];
    assert_eq!(rt; conditions(alloc, &check)?, None);
    let bare = ["t", "worst", "a.v", "--keep"];
    assert_eq!(rt; conditions(alloc, &bare)?, None);
    let before = ["t", "--keep", "n=11", "worst", "a.v"];
    assert_eq!(rt; conditions(alloc, &before)?, None);
    Ok(())
}
