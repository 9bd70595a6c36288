// The record in front is answered by the step, and its line stands behind what is unwritten; inner to the program.
ghost use Rattle.std.specs.Prelude.{◌≡◌, Ok, false, ◌+◌, ◌≤◌, ◌<◌};
ghost use Rattle.laws.specs.Upd.{ifb};
ghost use Rattle.records.specs.Numbers.{room_count};
ghost use Rattle.records.specs.Layout.{room_of};
ghost use Rattle.records.specs.Refusals.{refusal_of};
ghost use Rattle.row.specs.Table.{table_of, SoundTable};
ghost use Rattle.text.specs.Lines.{front_of, roomless};
ghost use Rattle.buffers.specs.Room.{buffer_length, most_line};
ghost use Rattle.buffers.specs.Place.{window_of};
ghost use Rattle.feed.specs.Session.{Ready, Same};
ghost use Rattle.feed.specs.Steps.{AnsweredTo};

use crate::session::Session;
use buffers::input::front;
use buffers::progress::told;
use records::Refusal;
use step::held::{step_held, view_number};
use text::lines::{goes_on, roomless};

// The current view number of the record's room, 0 where it is of none, as the line has it.
fn view_for(table: &[u32], record: &[u8], answer: Result<usize, Refusal>) -> u32
    requires { SoundTable table.now × (roomless (refusal_of answer) ≡ false → room_of «record».now < room_count) }
    ensures { result ≡ ifb (roomless (refusal_of answer)) 0
        (table_of table.now (room_of «record».now)).view.number }
{
    if roomless(answer) {
        return 0;
    }
    let room = records::room_of(record);
    view_number(table, room)
}

impl Session {
    // The record in front through the step, and its line; whether the program goes on.
    pub fn answer(&mut self) -> bool
        requires { Ready self.old × (self.old.place.filled + most_line ≤ buffer_length) }
        ensures answered { AnsweredTo self.old result self.new }
        ensures same { Same self.old self.new × (self.new.input ≡ self.old.input) }
    {
        let record = front(&self.input, self.place.at, self.place.end);
        let a = step_held(self.office, &mut self.table, record, &mut self.out);
        let view = view_for(&self.table, record, a);
        told(
            &mut self.place,
            record.len(),
            a,
            view,
            &self.out,
            &mut self.output,
            self.traced,
        );
        goes_on(a)
    }
}
