// Whether words are a row: their length, their mode word and their presence word.
ghost use Rattle.std.specs.Prelude.{◌≡◌};
ghost use Rattle.row.specs.Row.{is_row};

use crate::layout;

// A bit for each of the sixteen offices.
const PRESENCES: u32 = 65536;

pub fn is_row(s: &[u32]) -> bool
    ensures { result ≡ is_row s.now }
{
    if s.len() != layout::WORDS {
        return false;
    }
    (s[layout::MODE] <= 2) & (s[layout::PRESENT] < PRESENCES)
}
