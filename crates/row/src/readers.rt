// What a row holds.
#![tactic(auto, unfolding(crate::specs::Row::state_of))]

ghost use Rattle.std.specs.Prelude.{◌≡◌, ◌+◌, ◌*◌, ◌<◌, ◌≤◌, length};
ghost use Rattle.rules.specs.State.{stored_at, accepted_at, used_at, used_for};
ghost use Rattle.row.specs.Row.{word, set_length, set_at, presence};
ghost use Rattle.row.specs.Held.{held};
ghost use Rattle.row.specs.Modes.{meaning};

use crate::lent::{Row, RowMut};
use crate::{Mode, layout};
use seats::SeatSet;

// One for each place: what each answers is another part of the state, which one for all places could not say.
impl Row<'_> {
    pub fn own(self) -> u8
        requires { (held self).own < 16 }
        ensures { result ≡ (held self.entry).own }
    {
        self.words[layout::OWN] as u8
    }

    pub fn mode(self) -> Mode
        ensures { meaning result ≡ (held self.entry).mode }
    {
        match self.words[layout::MODE] {
            0 => Mode::None,
            1 => Mode::Fast,
            _ => Mode::Slow,
        }
    }

    pub fn net(self) -> SeatSet
        ensures { result ≡ (held self.entry).net }
    {
        set_at(self.words, layout::NET)
    }

    pub fn start(self) -> u32
        ensures { result ≡ (held self.entry).start }
    {
        self.words[layout::START]
    }

    pub fn number(self) -> u32
        ensures { result ≡ (held self.entry).number }
    {
        self.words[layout::NUMBER]
    }

    pub fn view_number(self) -> u32
        ensures { result ≡ (held self.entry).view.number }
    {
        self.words[layout::VIEW]
    }

    #[tactic(auto, using(crate::proofs::Parts::row_accepted))]
    pub fn accepted(self, o: usize) -> u32
        requires { o < 16 }
        ensures { result ≡ accepted_at (held self.entry) o }
    {
        self.words[layout::ACCEPTED + o]
    }

    #[tactic(auto, using(crate::proofs::Parts::row_used))]
    pub fn used(self, o: usize) -> u32
        requires { o < 16 }
        ensures { result ≡ used_at (held self.entry) o }
    {
        self.words[layout::USED + o]
    }

    #[tactic(auto, using(crate::proofs::Presence::row_present, crate::proofs::Presence::bit_read))]
    pub fn stored_present(self, o: usize) -> bool
        requires { o < 16 }
        ensures { result ≡ (stored_at (held self.entry) o).present }
    {
        (self.words[layout::PRESENT] >> (o as u32)) & 1 == 1
    }

    // The offices for which a proposal is stored.
    #[tactic(auto, using(crate::proofs::Presence::row_presence))]
    pub fn present(self) -> u16
        ensures { result ≡ presence (held self.entry) }
    {
        self.words[layout::PRESENT] as u16
    }

    // A number, no mode: `state_words` holds of a state whose stored proposals have any kind.
    #[tactic(auto, using(crate::proofs::Parts::row_stored), unfolding(crate::specs::Row::slot_of))]
    pub fn stored_kind(self, o: usize) -> u32
        requires { o < 16 }
        ensures { result ≡ (stored_at (held self.entry) o).proposal.kind }
    {
        self.words[layout::SLOTS + layout::SLOT * o + layout::KIND]
    }

    #[tactic(auto, using(crate::proofs::Parts::row_stored), unfolding(crate::specs::Row::slot_of))]
    pub fn stored_members(self, o: usize) -> SeatSet
        requires { o < 16 }
        ensures { result ≡ (stored_at (held self.entry) o).proposal.members }
    {
        set_at(
            self.words,
            layout::SLOTS + layout::SLOT * o + layout::SLOT_MEMBERS,
        )
    }

    #[tactic(auto, using(crate::proofs::Parts::row_stored), unfolding(crate::specs::Row::slot_of))]
    pub fn stored_start(self, o: usize) -> u32
        requires { o < 16 }
        ensures { result ≡ (stored_at (held self.entry) o).proposal.start }
    {
        self.words[layout::STORED_NUMBERS + layout::STORED * o]
    }

    #[tactic(auto, using(crate::proofs::Parts::row_stored), unfolding(crate::specs::Row::slot_of))]
    pub fn stored_number(self, o: usize) -> u32
        requires { o < 16 }
        ensures { result ≡ (stored_at (held self.entry) o).proposal.number }
    {
        self.words[layout::STORED_NUMBERS + layout::STORED * o + layout::STORED_NUMBER]
    }

    // The used number for office k of what is stored for office o.
    #[tactic(auto, using(crate::proofs::Parts::stored_used_is))]
    pub fn stored_used(self, o: usize, k: usize) -> u32
        requires { (o < 16) × (k < 16) }
        ensures { result ≡ used_for (stored_at (held self.entry) o).proposal k }
    {
        self.words[layout::STORED_NUMBERS + layout::STORED * o + layout::STORED_USED + k]
    }
}

impl RowMut<'_> {
    // To read what it holds.
    pub fn get(&self) -> Row<'_>
        ensures { result.words.now ≡ self.now.words.now }
    {
        Row { words: self.words }
    }
}

fn set_at(s: &[u32], at: usize) -> SeatSet
    requires { at + set_length ≤ length s.now }
    ensures { result ≡ set_at s.now at }
{
    SeatSet {
        bits: joined(s[at], s[at + 1]),
    }
}

fn joined(low: u32, high: u32) -> u64
    ensures { result ≡ low + word * high }
{
    u64::from(low) + layout::WORD * u64::from(high)
}
