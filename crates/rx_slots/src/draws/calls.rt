//! The calls of [`Draws`].
ghost use Rattle.std.specs.Prelude.{◌≡◌, ◌+◌, ◌-◌, ◌^◌, ◌<◌, false, IfOk, MatchOption};
ghost use Rattle.rx_slots.specs.Draws.{first_drawer, new_drawer, with_one_less, with_number, when_done};
ghost use Rattle.rx_slots.specs.DrawSeats.{IsDrawSeat, draw_view, limit_of};

use super::{Another, Bounds, Draw, DrawSeat, Draws};
use atomic_table::Table;
use rx_memory::Memory;
use std::alloc::Global;

impl Draws {
    /// The numbers below a limit, for so many seats, and the first seat, which makes the others.
    ///
    /// # Errors
    ///
    /// Only want of memory.
    pub fn new(alloc: Global, limit: u64, seats: u64) -> Result<(Draws, DrawSeat), Memory>
        requires some { 0 < seats }
        requires fits { limit + seats < 2 ^ 64 }
        ensures limit { IfOk result (λ made. limit_of made.0 ≡ limit) }
        ensures seat { IfOk result (λ made. IsDrawSeat made.0 made.1) }
        ensures first { IfOk result (λ made. draw_view made.1 ≡ first_drawer (record { limit = limit; seats = seats })) }
    {
        let (table, seat) = Table::of_words(alloc, &[0], &Bounds { limit, seats })?;
        Ok((Draws { table, limit }, DrawSeat { seat }))
    }

    /// Another seat, which has drawn nothing. The seat that it comes of may make one less.
    pub fn split(&self, seat: &mut DrawSeat) -> DrawSeat
        requires of { IsDrawSeat self.now seat.old }
        requires left { 0 < (draw_view seat.old).left }
        ensures of { IsDrawSeat self.now seat.new }
        ensures one_less { draw_view seat.new ≡ with_one_less (draw_view seat.old) }
        ensures another { IsDrawSeat self.now result }
        ensures empty { draw_view result ≡ new_drawer (draw_view seat.old) }
    {
        let another = self.table.shared.split_seat::<Another>(&mut seat.seat);
        DrawSeat { seat: another }
    }

    /// Draws a number, which no other draw gives; or None, where there is none left. It takes one atomic step and no memory.
    ///
    /// None comes exactly where the step found the limit reached. The seat is done then.
    pub fn draw(&self, seat: &mut DrawSeat) -> Option<u64>
        requires of { IsDrawSeat self.now seat.old }
        requires goes_on { (draw_view seat.old).done ≡ false }
        ensures of { IsDrawSeat self.now seat.new }
        ensures answer { MatchOption result (draw_view seat.new ≡ when_done (draw_view seat.old))
            (λ number. (number < limit_of self.now) × (draw_view seat.new ≡ with_number (draw_view seat.old) number)) }
    {
        let found = self.table.shared.fetch_add::<Draw>(&mut seat.seat, 0, 1);
        if found < self.limit {
            return Some(found);
        }
        None
    }
}
