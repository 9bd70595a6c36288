// An event in the table once every check but 11, 12 and 13 is passed: its room picks the row. Inner to the layer of
// the step.
ghost use Rattle.std.specs.Prelude.{◌≡◌, ◌<◌, length};
ghost use Rattle.records.specs.Numbers.{room_count};
ghost use Rattle.records.specs.Refusals.{refusal_of};
ghost use Rattle.events.specs.Events.{event_held};
ghost use Rattle.row.specs.Table.{row_place, table_of, SoundTable};
ghost use Rattle.step.specs.Answers.{written_of};
ghost use Rattle.step.specs.Step.{ReadyEvent, Stepped, act_words};

use crate::acting::act_event;
use events::Event;
use records::Refusal;

// Where the row of a room begins.
fn row_place(room: u8) -> usize
    ensures { result ≡ row_place room }
{
    row::WORDS * room as usize
}

// An event behind checks 2, 3, 20 and those of its form: 11, 12, 13, then what it does in the row of its room, a part
// of the table itself.
pub fn act_read(table: &mut [u32], event: Event, out: &mut [u8]) -> Result<usize, Refusal>
    requires { ReadyEvent table.old (event_held event) (length out.old) }
    ensures { Stepped event.room
        (act_words table.old (event_held event) (length out.old)) out.old
        (refusal_of result) (written_of result) table.new out.new }
{
    let at = row_place(event.room);
    act_event(&mut table[at..at + row::WORDS], event, out)
}

// The own office of a room.
pub fn own_of(table: &[u32], room: u8) -> u8
    requires { SoundTable table.now × (room < room_count) }
    ensures { result ≡ (table_of table.now room).own }
{
    row::table::row_in(table, room).own()
}
