// The number that a call for C answers: 256 times a value, and a refusal or 0.
ghost use Rattle.std.specs.Prelude.{◌≡◌};
ghost use Rattle.records.specs.Refusals.{refusal_of};
ghost use Rattle.calls.specs.Number.{call_number};

use records::Refusal;

// The refusal is a number here: C gets the value 17 beside some.
pub fn call_number(value: u16, refusal: u8) -> u32
    ensures { result ≡ call_number value refusal }
{
    256 * u32::from(value) + u32::from(refusal)
}

// The number of a refusal; 0 where nothing is refused.
pub fn refusal_number<T: Copy>(answer: Result<T, Refusal>) -> u8
    ensures { result ≡ refusal_of answer }
{
    match answer {
        Ok(_) => 0,
        Err(e) => u8::from(e),
    }
}
