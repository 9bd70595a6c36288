// The input buffer of the program, inner to it: its bytes read and not yet answered; where the program stands.
ghost use Rattle.std.specs.Prelude.{◌≡◌, ◌==◌, eqb, ◌+◌, ◌-◌, ◌<◌, ◌≤◌, length, take, drop};
ghost use Rattle.std.proofs.lemmas.List.Edits.{sets};
ghost use Rattle.records.specs.Refusals.{refusal_of};
ghost use Rattle.text.specs.Lines.{front_of};
ghost use Rattle.buffers.specs.Room.{buffer_length};
ghost use Rattle.buffers.specs.Place.{Within, window_of, waits_of, read_of, ReadBy, grown_of, Refilled};

use crate::retry::again;
use records::Refusal;
use records::run::{run_check, run_first};
use std::io;
use std::io::Read as _;
use std::rt::Clock;

// Of the input buffer the bytes from `at` to `end` are still to be answered, of the output buffer the first `filled`
// still to be written. `ended` says that the input has no more, `number` how many records were answered.
// The buffers are lent beside it: `emptied` takes an output of any length, `Ran` (feed/specs/Whole) a place alone.
#[derive(Clone, Copy)]
pub struct Place {
    pub ended: bool,
    pub at: usize,
    pub end: usize,
    pub filled: usize,
    pub number: u64,
}

// The n bytes from a place on go to the front.
pub(crate) fn to_front(buf: &mut [u8], at: usize, n: usize)
    requires { at + n ≤ length buf.old }
    ensures { buf.new ≡ sets buf.old 0 (take n (drop at buf.old)) }
{
    buf.copy_within(at..at + n, 0);
}

// What the input has next, at most as much as fits; it is waited for. An error is a failure for good. A loop has to
// end, so no more tries are made than any run uses up.
#[tactic(auto, using(crate::proofs::Window::read_fits))]
pub fn read_some(rt: &(impl Input + Clock), part: &mut [u8]) -> io::Result<usize>
    requires { 0 < length part.old }
    ensures { ReadBy (length part.new) (read_of result) }
{
    let mut answer = rt.reader().read(part);
    for _ in 0..u64::MAX {
        if !again(rt, &answer) {
            break;
        }
        answer = rt.reader().read(part);
    }
    answer
}

// No bytes are the end of the input.
pub fn is_end(got: usize) -> bool
    ensures { result ≡ eqb got 0 }
{
    got == 0
}

// What is still to be answered goes to the front of the buffer, and what the input has next behind it.
pub fn refill(rt: &(impl Input + Clock), p: &mut Place, input: &mut [u8]) -> io::Result<()>
    requires { Within p.old × (length input.old ≡ buffer_length) × (p.old.end - p.old.at < buffer_length) }
    ensures { Refilled p.old input.old (grown_of result p.new) input.new }
{
    let n = p.end - p.at;
    to_front(input, p.at, n);
    p.ended = false;
    p.at = 0;
    p.end = n;
    let got = read_some(rt, &mut input[n..])?;
    p.ended = is_end(got);
    p.end = n + got;
    Ok(())
}

// Whether a run was refused by 5.
fn too_short(answer: Result<(), Refusal>) -> bool
    ensures { result ≡ (refusal_of answer == 5) }
{
    matches!(answer, Err(Refusal::Length))
}

// Whether more input can change what stands in front.
#[tactic(auto, using(crate::proofs::Window::waiting), unfolding(crate::specs::Place::window_of))]
pub fn waits(p: Place, input: &[u8]) -> bool
    requires { Within p × (length input.now ≡ buffer_length) }
    ensures { result ≡ waits_of p.ended (window_of p input.now) }
{
    if p.ended {
        return false;
    }
    let at = p.at;
    let end = p.end;
    let run = &input[at..end];
    run.len() < 2 || too_short(run_check(run))
}

// The record in front; the rest of the input where it is refused by 4 or 5.
pub fn front<'a>(input: &'a [u8], at: usize, end: usize) -> &'a [u8]
    requires { (at ≤ end) × (end ≤ length input.now) }
    ensures { result.now ≡ front_of (take (end - at) (drop at input.now)) }
{
    let run = &input[at..end];
    let first = run_first(run);
    if first.is_empty() { run } else { first }
}
