// Where the program stands once it has written, and once it has a line to write; inner to the program.
ghost use Rattle.std.specs.Prelude.{◌≡◌, ◌≤◌, length};
ghost use Rattle.laws.specs.Upd.{ifb};
ghost use Rattle.records.specs.Refusals.{refusal_of};
ghost use Rattle.step.specs.Answers.{written_of, answer_of};
ghost use Rattle.buffers.specs.Progress.{Emptied, LineFits, Told};

use crate::input::{Place, to_front};
use crate::output::{due, flush, has_room};
use records::Refusal;
use std::rt::Clock;
use text::Text;

// What is unwritten is written before the program waits, and where a line could have no room; what a failed write left
// over goes to the front.
pub fn emptied(rt: &(impl Print + Clock), p: &mut Place, output: &mut [u8], waiting: bool)
    requires { p.old.filled ≤ length output.old }
    ensures { Emptied p.old waiting output.old p.new output.new }
{
    if has_room(p.filled, waiting) {
        return;
    }
    let sent = flush(rt, rt, due(output, p.filled));
    let left = p.filled - sent;
    to_front(output, sent, left);
    p.filled = left;
}

// The numbers of an answer: its refusal or 0, and the bytes written.
fn numbers(answer: Result<usize, Refusal>) -> (u8, usize)
    ensures { (result.0 ≡ refusal_of answer) × (result.1 ≡ written_of answer) }
{
    match answer {
        Ok(written) => (0, written),
        Err(refusal) => (u8::from(refusal), 0),
    }
}

// How many of the bytes written a line shows, by the flag that `Told` is of.
fn shown(traced: bool, written: usize) -> usize
    ensures { (result ≡ ifb traced written 0) × (result ≤ written) }
{
    if traced { written } else { 0 }
}

// The line of a record of so many bytes behind what is unwritten.
pub fn told(
    p: &mut Place,
    taken: usize,
    answer: Result<usize, Refusal>,
    view: u32,
    out: &[u8],
    output: &mut [u8],
    traced: bool,
)
    requires { LineFits p.old taken (answer_of answer) out.now output.old }
    ensures { Told traced p.old taken (answer_of answer) view out.now output.old
        p.new output.new }
{
    let (refusal, written) = numbers(answer);
    let n = shown(traced, written);
    p.at += taken;
    p.number += 1;
    let mut text = Text {
        bytes: output,
        at: p.filled,
    };
    text.line(p.number, refusal, written, view, &out[..n]);
    p.filled = text.at;
}
