// What an office at work asks from C of a room: whom it waits for there; include/room.h declares it.
ghost use Rattle.std.specs.Prelude.{◌≡◌};
ghost use Rattle.waiting_for.specs.Table.{waiting_words};
ghost use Rattle.waiting.specs.Waiting.{refusal_in, value_in};
ghost use Rattle.calls.specs.Number.{call_number};
ghost use Rattle.calls.specs.WaitingCalls.{number_of};

use crate::number::call_number;
use records::Refusal;
use waiting_for::{Waiting, waiting_for};

// The values of the answers that name no office.
const MET: u16 = 16;

const NOBODY: u16 = 17;

#[tactic(auto, unfolding(waiting::specs::Waiting::refusal_in, waiting::specs::Waiting::value_in))]
fn waiting_number(w: Waiting) -> u32
    ensures { result ≡ call_number (value_in w) (refusal_in w) }
{
    match w {
        Waiting::Malformed => call_number(NOBODY, u8::from(Refusal::State)),
        Waiting::NoRoom => call_number(NOBODY, u8::from(Refusal::Room)),
        Waiting::Nobody => call_number(NOBODY, 0),
        Waiting::Met => call_number(MET, 0),
        Waiting::For(o) => call_number(u16::from(o), 0),
    }
}

// The words are only read.
#[tactic(auto, unfolding(crate::specs::WaitingCalls::number_of))]
#[unsafe(no_mangle)]
pub extern "C" fn room_waiting_for(table: &[u32], room: u8) -> u32
    ensures { result ≡ number_of (waiting_words table.now room) }
{
    waiting_number(waiting_for(table, room))
}
