// Which line of the program is the last, and which names no room; inner to the program.
ghost use Rattle.std.specs.Prelude.{◌≡◌};
ghost use Rattle.records.specs.Refusals.{number, refusal_of};
ghost use Rattle.text.specs.Lines.{ends_reading, goes_on, roomless};

use records::Refusal;

// With 4 or 5 the reading of the input ends.
fn ends_reading(refusal: Refusal) -> bool
    ensures { result ≡ ends_reading (number refusal) }
{
    matches!(refusal, Refusal::Mark | Refusal::Length)
}

// The program then stops.
#[tactic(auto, unfolding(crate::specs::Lines::goes_on))]
pub fn goes_on(answer: Result<usize, Refusal>) -> bool
    ensures { result ≡ goes_on (refusal_of answer) }
{
    match answer {
        Ok(_) => true,
        Err(refusal) => !ends_reading(refusal),
    }
}

// With 4, 5 or 20 the record is of no room.
#[tactic(auto, unfolding(crate::specs::Lines::roomless))]
pub fn roomless(answer: Result<usize, Refusal>) -> bool
    ensures { result ≡ roomless (refusal_of answer) }
{
    matches!(answer, Err(Refusal::Mark | Refusal::Length | Refusal::Room))
}
