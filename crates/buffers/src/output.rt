// The output buffer of the program, inner to it: those of its bytes answered and not yet written.
ghost use Rattle.std.specs.Prelude.{◌≡◌, ◌≤◌, IfOk, MatchResult, length, take};
ghost use Rattle.buffers.specs.Room.{room_for};

use crate::retry::again;
use std::io;
use std::rt::Clock;

// How many bytes each of the two buffers has.
pub const BUFFER: usize = 65536;

// The most that one line takes: it shows what one event writes.
const LINE: usize = text::LINE + 2 * step::ROOM;

// The part of the output buffer that is to be written.
pub fn due<'a>(output: &'a [u8], filled: usize) -> &'a [u8]
    requires { filled ≤ length output.now }
    ensures { result.now ≡ take filled output.now }
{
    &output[..filled]
}

// What a write of a part answers; an error is a failure for good. A loop has to end, so no more tries are made than any
// run uses up. It is the loop of `read_some` with another call; of a closure that captures a part, and may be called
// in a state with another, no contract bounds the count by the part's length.
fn write_some<C: Clock, W: Print>(clock: &C, to: &W, part: &[u8]) -> io::Result<usize>
    ensures { IfOk result (λ n. n ≤ length part.now) }
{
    let mut answer = to.write_some(part);
    for _ in 0..u64::MAX {
        if !again(clock, &answer) {
            break;
        }
        answer = to.write_some(part);
    }
    answer
}

// What counts as written is what the write answered; none where it failed for good.
fn counted(answer: io::Result<usize>) -> usize
    ensures { MatchResult answer (λ n. result ≡ n) (λ e. result ≡ 0) }
{
    answer.unwrap_or(0)
}

// Writes a part and answers how many of its bytes count as written: as many as the writes took, each behind the one
// before; fewer than all only where one took none.
pub fn flush<C: Clock, W: Print>(clock: &C, to: &W, part: &[u8]) -> usize
    ensures { result ≤ length part.now }
{
    let mut rest = part;
    // Where a write begins is the answer of the one before, which no iterator can know.
    while !rest.is_empty() {
        let put = counted(write_some(clock, to, rest));
        if put == 0 {
            break;
        }
        rest = &rest[put..];
    }
    part.len() - rest.len()
}

// Whether the program may go on before it writes: nothing is unwritten where it will wait, else a line has room.
pub fn has_room(filled: usize, waiting: bool) -> bool
    ensures { result ≡ room_for filled waiting }
{
    if waiting {
        filled == 0
    } else {
        filled <= BUFFER - LINE
    }
}
