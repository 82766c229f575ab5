ghost use Rattle.std.specs.Prelude.{◌≡◌, ◌≢◌, ℕ, ◌<◌, ◌≤◌, length, max, IfOk, slice_get, Some};
ghost use Rattle.td_incumbent.specs.Held.{Shown, Held, new_seat, both_seats, HasAllSeats};

use crate::view::{Both, Deal, Greatest, Look, Raise, View};
use atomic_table::Table;
use std::alloc::{AllocError, Global};
use std::marker::Model;

/// One word, the greatest of all offers, which threads share by `&`.
/// No call but `new` takes memory, and none waits for another thread.
#[derive(Drop)]
pub struct Incumbent {
    table: Table<u8, View, u64, Greatest, Global>,
}

impl Model for Incumbent {
    ghost use Rattle.std.specs.Prelude.{◌≡◌};
    ghost use Rattle.td_incumbent.specs.Held.{Shown, shown_code};

    ghost Value = { Shown };

    ghost coded = { shown_code };

    ghost view = { λ i. record { table = i.table.shared.table_id; seats = i.table.shared.key } };

    ghost invariant = { λ i. (i.table.shared.table_id.words ≡ 1) × (i.table.shared.table_id.slots ≡ 0) };
}

/// A thread's place at an incumbent. It has no bytes.
#[derive(Drop)]
pub struct Seat {
    seat: atomic_table::Seat<u8, View>,
}

impl Model for Seat {
    ghost use Rattle.std.specs.Prelude.{◌≡◌, ◌≢◌, []};
    ghost use Rattle.td_incumbent.specs.Held.{Held, held_code};

    ghost Value = { Held };

    ghost coded = { held_code };

    ghost view = { λ s. record { table = s.seat.table_id; seen = s.seat.me.0.seen; offer = s.seat.me.0.offer; seats = s.seat.me.0.seats } };

    ghost invariant = { λ s. (s.seat.me.1 ≡ []) × (s.seat.me.0.seats ≢ []) };
}

impl Incumbent {
    /// The word at 0, and its seats, at least one. The error is out of memory.
    pub fn new(alloc: Global, seats: usize) -> Result<(Incumbent, Vec<Seat>), AllocError>
        requires { 0 < seats }
        ensures count { IfOk result (λ r. (r.0.seats ≡ seats) × (length r.1.items ≡ seats)) }
        ensures each { IfOk result (λ r. (k : ℕ) → k < seats → slice_get r.1.items k ≡ Some (new_seat r.0 k)) }
    {
        let mut all = Vec::with_capacity(alloc, seats)?;
        let (table, mut rest) = Table::of_words(alloc, &[0], &(seats as u64))?;
        for _ in 1..seats {
            let seat = table.shared.split_seat::<Deal>(&mut rest);
            all.push_reserved(Seat { seat });
        }
        all.push_reserved(Seat { seat: rest });
        Ok((Incumbent { table }, all))
    }

    /// What the word holds, which is at least what this seat, one of this incumbent, has seen.
    pub fn look(&self, seat: &mut Seat) -> u64
        requires { seat.old.table ≡ self.now.table }
        ensures seen { seat.old.seen ≤ result }
        ensures seat { seat.new ≡ record seat.old { seen = result } }
    {
        self.table.shared.load::<Look>(&mut seat.seat, 0)
    }

    /// The word becomes the greater of itself and the offer. The answer is the word afterwards, at
    /// least the offer and what this seat, one of this incumbent, has seen.
    pub fn raise(&self, seat: &mut Seat, offer: u64) -> u64
        requires { seat.old.table ≡ self.now.table }
        ensures seen { seat.old.seen ≤ result }
        ensures offer { offer ≤ result }
        ensures seat { seat.new ≡ record seat.old { seen = result; offer = max seat.old.offer offer } }
    {
        self.raise_from(seat, offer).max(offer)
    }

    /// Raises the word to the offer, where that is greater; the answer is the word before.
    fn raise_from(&self, seat: &mut Seat, offer: u64) -> u64
        requires { seat.old.table ≡ self.now.table }
        ensures seen { seat.old.seen ≤ result }
        ensures seat { seat.new ≡ record seat.old { seen = max result offer; offer = max seat.old.offer offer } }
    {
        self.table
            .shared
            .fetch_max::<Raise>(&mut seat.seat, 0, offer)
    }

    /// The first seat, which from now on stands for the second too, with the greater of their
    /// offers. Both are of this incumbent.
    pub fn join(&self, first: Seat, second: Seat) -> Seat
        requires first { first.table ≡ self.now.table }
        requires second { second.table ≡ self.now.table }
        ensures { result ≡ both_seats first second }
    {
        let Seat { mut seat } = first;
        let Seat { seat: other } = second;
        self.table.shared.join_seat::<Both>(&mut seat, other);
        Seat { seat }
    }

    /// The greatest of all offers, 0 where there is none, once all seats were joined into this one.
    pub fn close(self, seat: Seat) -> u64
        requires table { seat.table ≡ self.table }
        requires all { HasAllSeats self seat }
        ensures { result ≡ seat.offer }
    {
        let Incumbent { table } = self;
        let Seat { seat } = seat;
        let closed = table.close_with(seat);
        let word = closed.word(0);
        closed.free();
        word
    }
}
