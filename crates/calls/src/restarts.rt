// What an office that may lose its current calls from C: its file of high marks, the table with which it begins again,
// the mark before a record leaves; include/room.h declares it.
ghost use Rattle.std.specs.Prelude.{◌≡◌, ◌≤◌, length};
ghost use Rattle.records.specs.Layout.{proposal_length};
ghost use Rattle.restart.specs.Restart.{restart_words};
ghost use Rattle.restart.specs.Before.{due_of, out_before};
ghost use Rattle.calls.specs.Number.{call_number};
ghost use Rattle.calls.specs.RestartCalls.{last_mark_call, before_number, before_call};

use crate::number::refusal_number;
use records::Refusal;
use restart::{DueMark, last_mark, mark_before};

// Makes the table of an office that begins again in the words lent.
#[unsafe(no_mangle)]
pub extern "C" fn room_restart(office: u8, file: &[u8], table: &mut [u32]) -> u8
    ensures { record { refusal = result; words = table.new }
        ≡ restart_words office file.now table.old }
{
    refusal_number(restart::restart(office, file, table))
}

fn mark_number(number: u32, refusal: u8) -> u64
    ensures { result ≡ call_number number refusal }
{
    256 * u64::from(number) + u64::from(refusal)
}

// The last whole mark of a file, which is only read.
#[tactic(auto, using(crate::proofs::RestartNumbers::last_laws))]
#[unsafe(no_mangle)]
pub extern "C" fn room_last_mark(file: &[u8]) -> u64
    ensures { result ≡ last_mark_call file.now }
{
    match last_mark(file) {
        Some(last) => mark_number(last, 0),
        None => mark_number(0, u8::from(Refusal::File)),
    }
}

fn before_number(before: Result<DueMark, Refusal>) -> u64
    requires { (due_of before).length ≤ proposal_length }
    ensures { result ≡ before_number (due_of before) }
{
    match before {
        Ok(due) => 65536 * u64::from(due.mark) + 256 * due.length as u64,
        Err(e) => u64::from(u8::from(e)),
    }
}

// What must happen before the first record of some bytes may leave; a mark that is due goes into the output lent.
#[tactic(auto, unfolding(crate::specs::RestartCalls::before_call), using(restart::proofs::Front::before_length))]
#[unsafe(no_mangle)]
pub extern "C" fn room_mark_before(last: u32, rest: &[u8], out: &mut [u8]) -> u64
    ensures { (result ≡ before_call last rest.now (length out.old))
        × (out.new ≡ out_before last rest.now out.old) }
{
    before_number(mark_before(last, rest, out))
}
