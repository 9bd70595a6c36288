// A turn, inner to the program: what is unwritten is written where that is due, then input is read or answered.
ghost use Rattle.std.specs.Prelude.{◌≡◌, ℕ, true, false};
ghost use Rattle.buffers.specs.Place.{window_of, waits_of};
ghost use Rattle.buffers.specs.Room.{room_for};
ghost use Rattle.feed.specs.Session.{Ready, Same, failed_of};
ghost use Rattle.feed.specs.Steps.{AdvancesTo, TurnsTo};

use crate::session::{Fault, Session};
use buffers::input::{refill, waits};
use buffers::output::has_room;
use buffers::progress::emptied;
use std::rt::Clock;

impl Session {
    // More of the input where that can change what stands in front; else the record in front; nothing at the input's
    // end. Whether the program goes on.
    fn advance(&mut self, rt: &(impl Input + Clock), waiting: bool) -> Result<bool, Fault>
        requires { Ready self.old × (waiting ≡ waits_of self.old.place.ended (window_of self.old.place self.old.input))
            × (room_for self.old.place.filled waiting ≡ true) }
        ensures advances { AdvancesTo self.old result self.new }
        ensures unfailed { failed_of result ≡ false }
        ensures same { Same self.old self.new }
    {
        if waiting {
            return match refill(rt, &mut self.place, &mut self.input) {
                Ok(()) => Ok(true),
                Err(_) => Err(Fault::Unread),
            };
        }
        if self.place.at == self.place.end {
            return Ok(false);
        }
        Ok(self.answer())
    }

    // Whether the program goes on.
    pub fn turn(&mut self, rt: &(impl Input + Print + Clock)) -> Result<bool, Fault>
        requires { Ready self.old }
        ensures turns { TurnsTo self.old result self.new }
        ensures same { Same self.old self.new }
    {
        let waiting = waits(self.place, &self.input);
        emptied(rt, &mut self.place, &mut self.output, waiting);
        if !has_room(self.place.filled, waiting) {
            return Err(Fault::Unwritten);
        }
        self.advance(rt, waiting)
    }
}
