// Changes of the stored proposals of a row, in place.
ghost use Rattle.std.specs.Prelude.{◌<◌};
ghost use Rattle.rules.specs.State.{nothing, keeping};
ghost use Rattle.row.specs.Changes.{flagging, filling};
ghost use Rattle.row.specs.Moved.{Moved};
ghost use Rattle.rules.specs.State.{with_stored};

use crate::layout;
use crate::lent::RowMut;
use crate::stores::{put_numbers, put_run};
use records::Proposal;
use seats::SeatSet;

const NO_PROPOSAL: Proposal = Proposal {
    sender: 0,
    kind: 0,
    members: SeatSet::EMPTY,
    start: 0,
    number: 0,
    used: [0; 16],
};

impl RowMut<'_> {
    // A proposal is stored for office o, or none is.
    fn put_present(&mut self, o: usize, present: bool)
        requires { o < 16 }
        ensures { Moved (flagging o present) self.old self.new }
    {
        let bit = 1u32 << (o as u32);
        if present {
            self.words[layout::PRESENT] |= bit;
        } else {
            self.words[layout::PRESENT] &= !bit;
        }
    }

    pub fn put_stored(&mut self, o: usize, p: Proposal)
        requires { o < 16 }
        ensures { Moved (with_stored o (keeping p)) self.old self.new }
    {
        self.put_present(o, true);
        self.put_slot(o, p);
    }

    // An emptied slot is all zeros.
    pub fn clear_stored(&mut self, o: usize)
        requires { o < 16 }
        ensures { Moved (with_stored o nothing) self.old self.new }
    {
        self.put_present(o, false);
        self.put_slot(o, NO_PROPOSAL);
    }

    // The words of an office's slot and its numbers.
    fn put_slot(&mut self, o: usize, p: Proposal)
        requires { o < 16 }
        ensures { Moved (filling o p) self.old self.new }
    {
        let head: [u32; layout::SLOT] = [
            u32::from(p.sender),
            u32::from(p.kind),
            (p.members.bits % layout::WORD) as u32,
            (p.members.bits / layout::WORD) as u32,
        ];
        let words = &mut *self.words;
        put_run(words, layout::SLOTS + layout::SLOT * o, &head);
        put_numbers(
            words,
            layout::STORED_NUMBERS + layout::STORED * o,
            p.start,
            p.number,
            p.used,
        );
    }
}
