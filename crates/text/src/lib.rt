// Lines as text, inner to the program: put into a buffer from a place on.
#![tactic(auto)]

ghost use Rattle.std.specs.Prelude.{[], ◌∷◌, ◌+◌, ◌<◌, ◌≤◌, length};
ghost use Rattle.text.specs.Digits.{decimal};
ghost use Rattle.text.specs.Lengths.{next_length, numbers_length, trace_length, line_length};
ghost use Rattle.text.specs.Added.{Added};
ghost use Rattle.text.specs.Text.{trace_of, numbers_of, line_of};

// Numbers and bytes in digits.
mod digits;

// Which line is the last.
pub mod lines;

// The most that a line takes beside the bytes that it shows: four numbers, a space behind each, its end.
pub const LINE: usize = 4 * digits::MOST + 5;

// A buffer lent, and the place where the next text goes.
#[derive(Drop)]
pub struct Text<'a> {
    pub bytes: &'a mut [u8],
    pub at: usize,
}

impl Text<'_> {
    fn byte(&mut self, b: u8)
        requires { self.old.at < length self.old.bytes.now }
        ensures { Added 1 (b ∷ []) self.old self.new }
    {
        self.bytes[self.at] = b;
        self.at += 1;
    }

    // A space and a number.
    fn next(&mut self, n: u64)
        requires { self.old.at + next_length ≤ length self.old.bytes.now }
        ensures { Added next_length (32 ∷ decimal n) self.old self.new }
    {
        self.byte(b' ');
        self.number(n);
    }

    fn numbers(&mut self, number: u64, refusal: u8, written: usize, view: u32)
        requires { self.old.at + numbers_length ≤ length self.old.bytes.now }
        ensures { Added numbers_length (numbers_of number refusal written view) self.old self.new }
    {
        self.number(number);
        self.next(refusal as u64);
        self.next(written as u64);
        self.next(view as u64);
    }

    // A space and the bytes in hexadecimal; nothing where there are none.
    fn trace(&mut self, bytes: &[u8])
        requires { self.old.at + trace_length (length bytes.now) ≤ length self.old.bytes.now }
        ensures { Added (trace_length (length bytes.now)) (trace_of bytes.now) self.old self.new }
    {
        if bytes.is_empty() {
            return;
        }
        self.byte(b' ');
        self.hex(bytes);
    }

    // A whole line: its four numbers, the bytes shown behind them, its end.
    pub fn line(&mut self, number: u64, refusal: u8, written: usize, view: u32, shown: &[u8])
        requires { self.old.at + line_length (length shown.now) ≤ length self.old.bytes.now }
        ensures { Added (line_length (length shown.now)) (line_of number refusal written view shown.now)
            self.old self.new }
    {
        self.numbers(number, refusal, written, view);
        self.trace(shown);
        self.byte(b'\n');
    }
}
