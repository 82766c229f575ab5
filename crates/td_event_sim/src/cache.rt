//! The delays of pairs that were measured before. One side of each split of a search stands for the
//! pair of the whole.

ghost use Rattle.std.specs.Prelude.{◌≡◌, ◌≢◌, ℕ, ◌<◌, true, false, None, Some, length, set, slice_get, IfOk, IfSome};
ghost use Rattle.std.specs.List.{All};
ghost use Rattle.td_event_sim.specs.Cached.{Cached, IsEmpty};

use std::alloc::{AllocError, Global};
use std::marker::Model;
use td_domain::Pair;

/// How many pairs are held.
const PLACES: usize = 16;

/// Two vectors, and the delay of the pair that they are, where it was measured.
#[derive(Drop)]
struct Entry {
    first: Vec<bool>,
    second: Vec<bool>,
    delay: Option<u64>,
}

impl Model for Entry {
    ghost use Rattle.td_event_sim.specs.Cached as cached;

    ghost Value = { cached.Cached };

    ghost view = { λ entry. record { first = entry.first.items; second = entry.second.items; delay = entry.delay } };
}

/// The delays of some pairs. Each pair has one place, which it shares with others: there the one
/// that was put last is held.
#[derive(Drop)]
pub struct Cache {
    entries: Vec<Entry>,
}

impl Model for Cache {
    ghost use Rattle.std.specs.Prelude.{List};
    ghost use Rattle.td_event_sim.specs.Cached as cached;

    ghost Value = { List cached.Cached };

    ghost view = { λ inside. inside.entries.items };
}

/// The place of a pair.
pub fn place_of(pair: &Pair) -> usize
    ensures { result < 16 }
{
    let first = mixed(0, pair.first());
    let both = mixed(first, pair.second());
    (both / 0x1000_0000) as usize
}

/// A number that follows from another one and these bits.
fn mixed(number: u32, bits: &[bool]) -> u32 {
    let mut mixed = number;
    for bit in bits {
        mixed = mixed
            .wrapping_mul(0x9e37_79b1)
            .wrapping_add(u32::from(*bit));
    }
    mixed
}

/// Whether these are the same bits.
fn is_same(left: &[bool], right: &[bool]) -> bool
    ensures same { result ≡ true → left.now ≡ right.now }
    ensures apart { result ≡ false → left.now ≢ right.now }
{
    left == right
}

impl Cache {
    /// An empty cache for pairs whose vectors have `inputs` bits each.
    pub fn new(alloc: Global, inputs: usize) -> Result<Self, AllocError>
        ensures count { IfOk result (λ cache. length cache ≡ 16) }
        ensures each { IfOk result (All (IsEmpty inputs)) }
    {
        let mut entries = Vec::new(alloc);
        for _ in 0..PLACES {
            entries.push(Entry {
                first: vec![in alloc; false; inputs]?,
                second: vec![in alloc; false; inputs]?,
                delay: None,
            })?;
        }
        Ok(Cache { entries })
    }

    /// The delay of a pair, where it is the one that is held at this place.
    pub fn find(&self, place: usize, pair: &Pair) -> Option<u64>
        requires { place < length self.now }
        ensures held { IfSome result (λ delay. slice_get self.now place ≡ Some (record { first = pair.now.first; second = pair.now.second; delay = Some delay })) }
        ensures none { result ≡ None → (delay : ℕ) → slice_get self.now place ≢ Some (record { first = pair.now.first; second = pair.now.second; delay = Some delay }) }
    {
        let entry = &self.entries[place];
        if is_same(&entry.first, pair.first()) && is_same(&entry.second, pair.second()) {
            entry.delay
        } else {
            None
        }
    }

    /// Holds a pair with its delay at this place.
    pub fn put(&mut self, place: usize, pair: &Pair, delay: u64)
        requires place { place < length self.old }
        requires first { All (λ (cached : Cached). length cached.first ≡ length pair.now.first) self.old }
        requires second { All (λ (cached : Cached). length cached.second ≡ length pair.now.second) self.old }
        ensures { self.new ≡ set self.old place (record { first = pair.now.first; second = pair.now.second; delay = Some delay }) }
    {
        let entry = &mut self.entries[place];
        entry.first.copy_from_slice(pair.first());
        entry.second.copy_from_slice(pair.second());
        entry.delay = Some(delay);
    }
}
