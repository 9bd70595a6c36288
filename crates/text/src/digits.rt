// Numbers in decimal and bytes in hexadecimal digits, put into a buffer from a place on; inner to the program.
ghost use Rattle.std.specs.Prelude.{◌≡◌, [], ◌∷◌, ◌+◌, ◌*◌, ◌/◌, ◌%◌, ◌<◌, ◌≤◌, length};
ghost use Rattle.std.proofs.lemmas.List.Edits.{sets};
ghost use Rattle.text.specs.Digits.{glyph, decimal, last_digits, hex_of};
ghost use Rattle.text.specs.Lengths.{number_length};
ghost use Rattle.text.specs.Added.{Added};
ghost use Rattle.text.specs.Put.{DigitCount};

use crate::Text;

// The most decimal digits that a number has.
pub const MOST: usize = 20;

// How many decimal digits n has.
fn digit_count(n: u64) -> usize
    ensures { DigitCount n result }
{
    match n.checked_ilog10() {
        Some(more) => more as usize + 1,
        None => 1,
    }
}

// The last k digits of n from a place on, from the last one back: a slice by places says it plainest.
fn spell(out: &mut [u8], at: usize, k: usize, n: u64)
    requires { at + k ≤ length out.old }
    ensures { out.new ≡ sets out.old at (last_digits k n) }
{
    let mut rest = n;
    for i in (0..k).rev() {
        out[at + i] = 48 + (rest % 10) as u8;
        rest /= 10;
    }
}

fn digit(d: u8) -> u8
    requires { d < 16 }
    ensures { result ≡ glyph d }
{
    if d < 10 { 48 + d } else { 87 + d }
}

// The two digits of a byte.
fn digits_of(byte: u8) -> [u8; 2]
    ensures { result ≡ glyph (byte / 16) ∷ glyph (byte % 16) ∷ [] }
{
    [digit(byte / 16), digit(byte % 16)]
}

// The two digits of each byte from a place on: a call of its own over two slices, which the compiler knows to be apart,
// so that many are put at a time.
#[inline(never)]
fn spell_hex(out: &mut [u8], at: usize, bytes: &[u8])
    requires { at + 2 * length bytes.now ≤ length out.old }
    ensures { out.new ≡ sets out.old at (hex_of bytes.now) }
{
    for (i, byte) in bytes.iter().enumerate() {
        let [high, low] = digits_of(*byte);
        out[at + 2 * i] = high;
        out[at + 2 * i + 1] = low;
    }
}

impl Text<'_> {
    pub(crate) fn number(&mut self, n: u64)
        requires { self.old.at + number_length ≤ length self.old.bytes.now }
        ensures { Added number_length (decimal n) self.old self.new }
    {
        if n < 10 {
            self.byte(48 + (n as u8));
            return;
        }
        let k = digit_count(n);
        spell(self.bytes, self.at, k, n);
        self.at += k;
    }

    pub(crate) fn hex(&mut self, bytes: &[u8])
        requires { self.old.at + 2 * length bytes.now ≤ length self.old.bytes.now }
        ensures { Added (2 * length bytes.now) (hex_of bytes.now) self.old self.new }
    {
        spell_hex(self.bytes, self.at, bytes);
        self.at += 2 * bytes.len();
    }
}
