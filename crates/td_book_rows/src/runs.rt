//! Books step by step, and what they tell: of a lease its worker, number, allowance and cube.

ghost use Rattle.std.specs.Prelude.{◌≤◌};

use crate::claims::free_book;
use crate::steps::reported;
use std::alloc::{AllocError, Global};
use std::process::Abort;
use std::test::Fail;
use td_book::Book;
use td_domain::{Cube, Trit};

// The nodes of a book's tree, if they are the same in a vector that has their room.
fn nodes_reported(alloc: Global, book: Book) -> Result<String, AllocError> {
    let tree = book.into_tree();
    let nodes = tree.nodes(alloc)?;
    let again = tree.nodes_in(Vec::with_capacity(alloc, tree.len() as usize)?);
    if again != nodes
        || !tree
            .cube()
            .has_trits(&[Trit::One, Trit::Free, Trit::Free, Trit::Zero])
    {
        return Err(AllocError);
    }
    format!(in alloc; "{nodes:?}")
}

// A book whose root has two known bits.
fn known_book(rt: &impl Abort, alloc: Global) -> Result<Book, AllocError> {
    let trits = Vec::from_slice(alloc, &[Trit::One, Trit::Free, Trit::Free, Trit::Zero])?;
    let cube = Cube::new(trits);
    assert!(rt; cube.len() == 4);
    Book::new(alloc, cube, 1, 3).map_err(|_root| AllocError)
}

// Takes these steps, and looks at what they tell.
fn check(
    rt: &impl Abort,
    alloc: Global,
    book: &mut Book,
    steps: &str,
    wanted: &str,
) -> Result<(), Fail> {
    assert_eq!(rt; reported(alloc, book, steps)?.as_str(), wanted);
    Ok(())
}

// As `check`, of a book for this number of inputs. Its root has all pairs.
fn check_free(
    rt: &impl Abort,
    alloc: Global,
    inputs: usize,
    workers: u32,
    budget: u64,
    steps: &str,
    wanted: &str,
) -> Result<(), Fail>
    requires inputs { inputs ≤ 100 }
    requires budget { budget ≤ 10000000 }
{
    let mut book = free_book(alloc, inputs, workers, budget)?;
    check(rt, alloc, &mut book, steps, wanted)
}

#[test]
fn a_split_and_two_closes(rt: HostRuntime) -> Result<(), Fail> {
    let alloc = rt.alloc();
    let mut book = known_book(&rt, alloc)?;
    assert!(rt; book.positions() == 4 && book.workers() == 1);
    check(
        &rt,
        alloc,
        &mut book,
        "00s0b0e0",
        "0 0 3 1..0
idle
split 1 2
0 1 2 10.0
closed
0 2 1 11.0
closed
done
3 handled
",
    )?;
    assert_eq!(rt;
        nodes_reported(alloc, book)?.as_str(),
        "[Node { number: 0, state: Split(1) }, Node { number: 1, state: Closed(Bound(Arrival), 3, 4) }, Node { number: 2, state: Closed(Empty, 3, 4) }]"
    );
    Ok(())
}

#[test]
fn a_released_leaf_is_leased_again(rt: HostRuntime) -> Result<(), Fail> {
    check_free(
        &rt,
        rt.alloc(),
        1,
        1,
        1,
        "0r0",
        "0 0 1 ..
released
0 0 1 ..
0 handled
",
    )?;
    Ok(())
}

#[test]
fn no_more_than_the_budget(rt: HostRuntime) -> Result<(), Fail> {
    check_free(&rt, rt.alloc(), 2, 1, 0, "0", "spent\n0 handled\n")?;
    check_free(
        &rt,
        rt.alloc(),
        2,
        2,
        2,
        "1s01p1",
        "1 0 1 ....
split 1 2
0 1 1 0...
idle
closed
spent
2 handled
",
    )?;
    Ok(())
}

#[test]
fn claims_by_number(rt: HostRuntime) -> Result<(), Fail> {
    check_free(
        &rt,
        rt.alloc(),
        1,
        2,
        10,
        "0XYsZCA",
        "0 0 1 ..
none
none
split 1 2
1 2 1 1.
none
none
1 handled
",
    )?;
    // beyond the budget
    check_free(
        &rt,
        rt.alloc(),
        1,
        2,
        2,
        "0sZBrB",
        "0 0 1 ..
split 1 2
1 2 1 1.
none
released
0 1 1 0.
1 handled
",
    )?;
    Ok(())
}

#[test]
fn allowances_of_a_root(rt: HostRuntime) -> Result<(), Fail> {
    check_free(&rt, rt.alloc(), 2, 1, 100, "0", "0 0 64 ....\n0 handled\n")?;
    check_free(&rt, rt.alloc(), 2, 1, 63, "0", "0 0 63 ....\n0 handled\n")?;
    Ok(())
}

// Of two workers, with a budget of 15, where the nodes lie deeper and deeper.
#[test]
fn allowances_from_eight_fixed_positions(rt: HostRuntime) -> Result<(), Fail> {
    check_free(
        &rt,
        rt.alloc(),
        5,
        2,
        15,
        "0s0s0s0s0s0s0s0s0s0s",
        "0 0 1 ..........
split 1 2
0 1 1 0.........
split 3 4
0 3 1 00........
split 5 6
0 5 1 000.......
split 7 8
0 7 1 0000......
split 9 10
0 9 1 00000.....
split 11 12
0 11 1 000000....
split 13 14
0 13 1 0000000...
split 15 16
0 15 7 00000000..
split 17 18
0 17 6 000000000.
split 19 20
10 handled
",
    )?;
    Ok(())
}

// Leases of another worker, number, allowance and of other cubes, and one that is closed already.
#[test]
fn strangers_come_back(rt: HostRuntime) -> Result<(), Fail> {
    check_free(
        &rt,
        rt.alloc(),
        1,
        2,
        9,
        "1cwrnplpmpkswglgpp",
        "1 0 1 ..
stranger 0 0 1 ..
stranger 1 7 1 ..
stranger 1 0 2 ..
stranger 1 0 1 .
stranger 1 0 1 1.
1 in a tree, stranger 0 0 1 ..
2 in a tree, stranger 1 0 2 ..
closed
stranger 1 0 1 ..
1 handled
",
    )?;
    Ok(())
}

// The numbers of what a graft leaves open come in the tree's order: where zero sides alone are
// split, and where the zero sides are closed.
#[test]
fn the_numbers_in_the_trees_order(rt: HostRuntime) -> Result<(), Fail> {
    check_free(
        &rt,
        rt.alloc(),
        2,
        1,
        5,
        "0g",
        "0 0 5 ....\ngrafted 8 6 4 2\n5 handled\n",
    )?;
    check_free(
        &rt,
        rt.alloc(),
        2,
        1,
        64,
        "0h0h",
        "0 0 64 ....
grafted 5 6
0 5 59 110.
grafted
8 handled
",
    )?;
    Ok(())
}
