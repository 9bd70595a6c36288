// The acting call, on any event and any table of words, in place; and the step, which is the reading call and the
// acting call in turn, on any bytes. act, step, fresh and current_view_number are open; held asks that its caller knows
// of the table what check 2 asks and that its rooms are of the office, as the program does.
#![tactic(auto)]

ghost use Rattle.std.specs.Prelude.{◌≡◌, length};
ghost use Rattle.records.specs.Layout.{room_of};
ghost use Rattle.records.specs.Refusals.{refusal_of};
ghost use Rattle.events.specs.Events.{event_held};
ghost use Rattle.step.specs.Answers.{written_of};
ghost use Rattle.step.specs.Checks.{unfit};
ghost use Rattle.step.specs.Step.{Stepped, act_words, step_words, view_found};

use checks::unready;
use dispatch::{act_read, own_of};
use events::{Event, event_refusal, read_event};
use records::Refusal;
use records::numbers::room_above;

// Checks 2, 3 and 11 to 13.
mod checks;

// The fresh table of an office.
mod making;

// The refusal of an event in the row of its room, with check 13.
mod refusals;

// An event in the row of its room: what it is picks the rule.
mod acting;

// An event in the table: its room picks the row.
mod dispatch;

// The step on a table that the caller keeps.
pub mod held;

pub use checks::ROOM;
pub use making::fresh;
pub use row::table::WORDS;

// The checks of an event on a table: 2, 3, 20, then 6 to 10 and 19 for the own office of its room.
fn act_refusal(table: &[u32], event: Event, output: usize) -> Result<(), Refusal>
    ensures { refusal_of result ≡ unfit table.now (event_held event) output }
{
    unready(table, output)?;
    let room = event.room;
    if room_above(room) {
        return Err(Refusal::Room);
    }
    event_refusal(own_of(table, room), event)
}

// The acting call: how many bytes it wrote. A refusal leaves every word and byte as it was; acceptance leaves the
// words of the state that the rules leave in the row of the event's room, and every other word as it was.
pub fn act(table: &mut [u32], event: Event, out: &mut [u8]) -> Result<usize, Refusal>
    ensures { Stepped event.room
        (act_words table.old (event_held event) (length out.old)) out.old
        (refusal_of result) (written_of result) table.new out.new }
{
    act_refusal(table, event, out.len())?;
    act_read(table, event, out)
}

// The reading call and the acting call in turn.
pub fn step(office: u8, table: &mut [u32], record: &[u8], out: &mut [u8]) -> Result<usize, Refusal>
    ensures { Stepped (room_of «record».now)
        (step_words office table.old «record».now (length out.old)) out.old
        (refusal_of result) (written_of result) table.new out.new }
{
    let event = read_event(office, record)?;
    act(table, event, out)
}

// The number of the current view of a room, none where check 2 fails or the room is above 7; the words are only read.
pub fn current_view_number(table: &[u32], room: u8) -> Option<u32>
    ensures { result ≡ view_found table.now room }
{
    if room_above(room) {
        return None;
    }
    if row::table::is_sound(table) {
        return Some(row::table::view_number(table, room));
    }
    None
}
