// Changes of what a row holds, in place, but for the stored proposals.
ghost use Rattle.std.specs.Prelude.{◌≡◌, ◌<◌, ◌≤◌, length};
ghost use Rattle.rules.specs.Rules.{restarted};
ghost use Rattle.row.specs.Row.{row_length, words_of};
ghost use Rattle.row.specs.Modes.{meaning};
ghost use Rattle.row.specs.Moved.{Moved};
ghost use Rattle.rules.specs.State.{with_mode, with_net_set, with_start, with_number, with_view};
ghost use Rattle.rules.specs.State.{with_accepted, with_used};

use crate::lent::RowMut;
use crate::stores::{put_run, put_set, put_zeros};
use crate::{Mode, layout};
use records::View;
use seats::SeatSet;

// One for each place: what each promises is of another part of the state, which one for all places could not say.
impl RowMut<'_> {
    pub fn set_mode(&mut self, mode: Mode)
        ensures { Moved (with_mode (meaning mode)) self.old self.new }
    {
        self.words[layout::MODE] = mode as u32;
    }

    pub fn set_start(&mut self, n: u32)
        ensures { Moved (with_start n) self.old self.new }
    {
        self.words[layout::START] = n;
    }

    pub fn set_number(&mut self, n: u32)
        ensures { Moved (with_number n) self.old self.new }
    {
        self.words[layout::NUMBER] = n;
    }

    pub fn set_accepted(&mut self, o: usize, n: u32)
        requires { o < 16 }
        ensures { Moved (with_accepted o n) self.old self.new }
    {
        self.words[layout::ACCEPTED + o] = n;
    }

    pub fn set_used(&mut self, o: usize, n: u32)
        requires { o < 16 }
        ensures { Moved (with_used o n) self.old self.new }
    {
        self.words[layout::USED + o] = n;
    }

    pub fn set_net(&mut self, x: SeatSet)
        ensures { Moved (with_net_set x) self.old self.new }
    {
        put_set(self.words, layout::NET, x);
    }

    pub fn put_view(&mut self, v: View)
        ensures { Moved (with_view v) self.old self.new }
    {
        let words = &mut *self.words;
        put_set(words, layout::MEMBERS, v.members);
        words[layout::VIEW] = v.number;
        put_run(words, layout::STARTS, &v.starts);
    }
}

// The state of an office that begins again at number m, over any words; at 0 it is the fresh one.
pub fn put_restarted(s: &mut [u32], office: u8, m: u32)
    requires { length s.old ≡ row_length }
    ensures { s.new ≡ words_of (restarted office m) }
{
    put_zeros(s);
    s[layout::OWN] = u32::from(office);
    s[layout::START] = m;
    s[layout::NUMBER] = m;
    s[layout::VIEW] = m;
}

pub fn copy(from: &[u32], to: &mut [u32])
    requires { length to.old ≡ length from.now }
    ensures { to.new ≡ from.now }
{
    to.copy_from_slice(from);
}
