// Words stored in a row from a place on. The laws say what such stores change in the state that it holds.
ghost use Rattle.std.specs.Prelude.{◌≡◌, ◌∷◌, ◌+◌, ◌≤◌, length};
ghost use Rattle.std.proofs.lemmas.List.Edits.{sets};
ghost use Rattle.laws.specs.Tab.{tab};
ghost use Rattle.row.specs.Row.{set_length, stored_length, row_length, set_words};

use crate::layout;
use seats::SeatSet;

// A start number, a proposal number and sixteen used numbers, from a place on.
pub fn put_numbers(s: &mut [u32], at: usize, start: u32, number: u32, used: [u32; 16])
    requires { at + stored_length ≤ length s.old }
    ensures { s.new ≡ sets s.old at (start ∷ number ∷ used) }
{
    s[at] = start;
    s[at + layout::STORED_NUMBER] = number;
    put_run(s, at + layout::STORED_USED, &used);
}

pub fn put_set(s: &mut [u32], at: usize, x: SeatSet)
    requires { at + set_length ≤ length s.old }
    ensures { s.new ≡ sets s.old at (set_words x) }
{
    s[at] = (x.bits % layout::WORD) as u32;
    s[at + 1] = (x.bits / layout::WORD) as u32;
}

// The words of w, from a place on.
pub fn put_run(s: &mut [u32], at: usize, w: &[u32])
    requires { at + length w.now ≤ length s.old }
    ensures { s.new ≡ sets s.old at w.now }
{
    s[at..at + w.len()].copy_from_slice(w);
}

pub fn put_zeros(s: &mut [u32])
    requires { length s.old ≡ row_length }
    ensures { s.new ≡ tab row_length (λ k. 0) }
{
    s.fill(0);
}
