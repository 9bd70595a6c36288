// Check 2 of the state that words hold, and whether the numbers that an event builds on are low.
ghost use Rattle.std.specs.Prelude.{◌≡◌, ◌+◌, ◌*◌, ◌<◌, ◌≤◌, length, get_or};
ghost use Rattle.laws.specs.Fin.{allb};
ghost use Rattle.rules.specs.State.{stored_at};
ghost use Rattle.records.specs.Numbers.{within};
ghost use Rattle.rules.specs.Refusals.{slot_within, well_formed};
ghost use Rattle.row.specs.Row.{sound_row, low_at, stored_low, capped_row, NoneAbove};
ghost use Rattle.row.specs.Held.{held};

use crate::lent::Row;
use crate::{LOW, form, layout};
use records::numbers::LIMIT;
use seats::offices::first;

const LAST_OFFICE: u32 = 15;

// How many numbers stand before those of what is stored.
const OWN_NUMBERS: usize = layout::STORED_NUMBERS - layout::START;

// Check 2 with its row: the length, mode and presence words, and the state that they hold.
pub fn is_sound(s: &[u32]) -> bool
    ensures { result ≡ sound_row s.now }
{
    if form::is_row(s) {
        return Row { words: s }.is_well_formed();
    }
    false
}

// Whether the next n numbers from a place on are at most L.
fn are_within(s: &[u32], at: usize, n: usize) -> bool
    requires { at + n ≤ length s.now }
    ensures { result ≡ allb n (λ k. within (get_or s.now (at + k) 0)) }
{
    let mut ok = true;
    for number in &s[at..at + n] {
        ok = (*number <= LIMIT) & ok;
    }
    ok
}

impl Row<'_> {
    // Whether the numbers that an event builds on are all low: start number, proposal number, view number, and of what
    // is stored start and proposal number.
    pub fn is_capped(self) -> bool
        ensures { result ≡ capped_row self.entry.words.now }
    {
        (self.words[layout::START] <= LOW)
            & (self.words[layout::NUMBER] <= LOW)
            & (self.words[layout::VIEW] <= LOW)
            & self.is_stored_low()
    }

    // The same of what is stored: one pass without branches says so for nearly every row, since no number is above the
    // digits of all together.
    fn is_stored_low(self) -> bool
        ensures { result ≡ stored_low self.entry.words.now }
    {
        if self.stored_digits() <= LOW {
            return true;
        }
        self.stored_low()
    }

    // The digits of the start and proposal numbers of all slots together.
    fn stored_digits(self) -> u32
        ensures { NoneAbove result 16 self.entry.words.now }
    {
        let mut all = 0;
        for o in 0..16 {
            let at = layout::STORED_NUMBERS + layout::STORED * o;
            all = all | self.words[at] | self.words[at + layout::STORED_NUMBER];
        }
        all
    }

    // The same by the slots that are present.
    fn stored_low(self) -> bool
        ensures { result ≡ stored_low self.entry.words.now }
    {
        let mut left = self.present();
        // The offices left are bits of a number, and no iterator of std goes over bits.
        while let Some(o) = first(left) {
            if !self.low_at(usize::from(o)) {
                return false;
            }
            left &= left - 1;
        }
        true
    }

    // The same of what is stored for office o.
    fn low_at(self, o: usize) -> bool
        requires { o < 16 }
        ensures { result ≡ low_at self.entry.words.now o }
    {
        let at = layout::STORED_NUMBERS + layout::STORED * o;
        (self.words[at] <= LOW) & (self.words[at + layout::STORED_NUMBER] <= LOW)
    }

    fn is_well_formed(self) -> bool
        ensures { result ≡ well_formed (held self.entry) }
    {
        (self.words[layout::OWN] <= LAST_OFFICE)
            & are_within(self.words, layout::START, OWN_NUMBERS)
            & self.slots_within()
    }

    fn slot_within(self, o: usize) -> bool
        requires { o < 16 }
        ensures { result ≡ slot_within (stored_at (held self.entry) o) }
    {
        if !self.stored_present(o) {
            return true;
        }
        are_within(
            self.words,
            layout::STORED_NUMBERS + layout::STORED * o,
            layout::STORED,
        )
    }

    fn slots_within(self) -> bool
        ensures { result ≡ allb 16 (λ o. slot_within (stored_at (held self.entry) o)) }
    {
        let mut ok = true;
        for o in 0..16 {
            ok = self.slot_within(o) & ok;
        }
        ok
    }
}
