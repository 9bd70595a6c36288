// What an office at work calls from C: a table in the caller's words, the bytes of a report, the step, the number of
// the current view of a room; include/room.h declares it.
ghost use Rattle.std.specs.Prelude.{◌≡◌, ◌≤◌};
ghost use Rattle.records.specs.Write.{Placed};
ghost use Rattle.records.specs.Refusals.{refusal_of};
ghost use Rattle.rules.specs.Refusals.{full_room};
ghost use Rattle.step.specs.Answers.{written_of};
ghost use Rattle.step.specs.Fresh.{fresh_words};
ghost use Rattle.step.specs.Step.{view_number_words};
ghost use Rattle.calls.specs.Number.{call_number};
ghost use Rattle.calls.specs.OfficeCalls.{report_bytes, call_of};

use crate::number::{call_number, refusal_number};
use record_bytes::write;
use records::numbers::room_above;
use records::{InRoom, Refusal, Report};
use seats::SeatSet;

// Makes a table in the words lent.
#[unsafe(no_mangle)]
pub extern "C" fn room_fresh(office: u8, table: &mut [u32]) -> u8
    ensures { record { refusal = result; words = table.new } ≡ fresh_words office table.old }
{
    refusal_number(step::fresh(office, table))
}

// Writes the report of two sets in a room at the start of the output lent.
#[tactic(auto, unfolding(crate::specs::OfficeCalls::report_bytes), using(crate::proofs::ReportFits::report_fits))]
#[unsafe(no_mangle)]
pub extern "C" fn room_report_write(room: u8, joining: u64, leaving: u64, out: &mut [u8]) -> u32
    ensures { Placed out.old 0 (report_bytes room joining leaving) result out.new }
{
    if room_above(room) {
        return 0;
    }
    let report = InRoom {
        room,
        record: Report {
            joining: SeatSet { bits: joining },
            leaving: SeatSet { bits: leaving },
        },
    };
    write(out, 0, report) as u32
}

fn step_number(stepped: Result<usize, Refusal>) -> u32
    requires { written_of stepped ≤ full_room }
    ensures { result ≡ call_number (written_of stepped) (refusal_of stepped) }
{
    match stepped {
        Ok(written) => call_number(written as u16, 0),
        Err(e) => call_number(0, u8::from(e)),
    }
}

// Reads a record for an office, then acts on its event in the words lent.
#[tactic(auto, using(crate::proofs::Called::step_laws))]
#[unsafe(no_mangle)]
pub extern "C" fn room_step(office: u8, table: &mut [u32], record: &[u8], out: &mut [u8]) -> u32
    ensures { record { answer = result; words = table.new; bytes = out.new }
        ≡ call_of office table.old «record».now out.old }
{
    step_number(step::step(office, table, record, out))
}

// The number of the current view of a room; the words are only read.
#[tactic(auto, unfolding(step::specs::Step::view_number_words, step::specs::Step::view_found))]
#[unsafe(no_mangle)]
pub extern "C" fn room_view_number(table: &[u32], room: u8) -> u32
    ensures { result ≡ view_number_words table.now room }
{
    step::current_view_number(table, room).unwrap_or(0)
}
