// The program: the records of standard input through the step, a line on standard output for each.
#![tactic(auto)]

ghost use Rattle.std.specs.Prelude.{◌≡◌, ◌-◌, ◌<◌, ◌≤◌, length};
ghost use Rattle.row.specs.Table.{table_length};
ghost use Rattle.text.specs.Lines.{no_office};
ghost use Rattle.feed.specs.Made.{TableMade};
ghost use Rattle.feed.specs.Steps.{RanTo};
ghost use Rattle.feed.specs.Whole.{Begins};

use buffers::input::{Place, is_end, read_some};
use buffers::output::{BUFFER, due, flush};
use session::{Fault, Session};
use std::env::FillError;
use std::rt::{Clock, Env};

// What the program holds from turn to turn.
mod session;

// A record answered: the table that the program holds, and the line behind what is unwritten.
mod answering;

// A turn: what is due is written, then more is read or a record answered.
mod turning;

// For whoever starts the program with an argument.
const ABOUT: &[u8] =
    b"No argument is read; standard input is one byte, the office, then reports and proposals end to end.\n";

impl Session {
    // Turn after turn, until the input has ended, a record is refused by 4 or 5, or a read or a write fails; `true`
    // where the turns ran out. A loop has to end, and nothing says that the input does: no run takes so many turns.
    fn turns(&mut self, rt: &(impl Input + Print + Clock)) -> Result<bool, Fault>
        requires { Begins self.old }
        ensures { RanTo self.old result 0 self.new }
    {
        for _ in 0..u64::MAX {
            match self.turn(rt) {
                Ok(true) => {}
                Ok(false) => return Ok(false),
                Err(fault) => return Err(fault),
            }
        }
        Ok(true)
    }

    // The turns, then what is still unwritten; where a read has failed, nothing is unwritten.
    fn serve(&mut self, rt: &(impl Input + Print + Clock)) -> Result<(), Fault>
        requires { Begins self.old }
    {
        self.turns(rt)?;
        let filled = self.place.filled;
        if flush(rt, rt, due(&self.output, filled)) < filled {
            return Err(Fault::Unwritten);
        }
        Ok(())
    }
}

// The line where no office can be served.
fn no_office() -> [u8; 8]
    ensures { result ≡ no_office }
{
    *b"0 1 0 0\n"
}

// The first byte of the input; none where it has ended.
fn first_byte(rt: &(impl Input + Clock)) -> Result<Option<u8>, Fault> {
    let mut byte = [0u8; 1];
    match read_some(rt, &mut byte) {
        Ok(got) if is_end(got) => Ok(None),
        Ok(_) => Ok(Some(byte[0])),
        Err(_) => Err(Fault::Unread),
    }
}

// Whether the office can be served; the table then holds its fresh states. A flag, since `TableMade` is of one.
fn make_table(office: u8, table: &mut [u32]) -> bool
    requires { length table.old ≡ table_length }
    ensures { TableMade office result table.new }
{
    match step::fresh(office, table) {
        Ok(()) => true,
        Err(_) => false,
    }
}

// The office served, unless it is none.
fn open(rt: &(impl Input + Print + Clock), office: u8, traced: bool) -> Result<bool, Fault> {
    let mut table = [0u32; step::WORDS];
    if !make_table(office, &mut table) {
        return Ok(false);
    }
    let mut session = Session {
        office,
        traced,
        table,
        input: [0u8; BUFFER],
        out: [0u8; step::ROOM],
        output: [0u8; BUFFER],
        place: Place {
            ended: false,
            at: 0,
            end: 0,
            filled: 0,
            number: 0,
        },
    };
    session.serve(rt)?;
    Ok(true)
}

// The office of the input served, or the one line where there is none.
fn answer_all(rt: &(impl Input + Print + Clock), traced: bool) -> Result<(), Fault> {
    let served = match first_byte(rt)? {
        Some(office) => open(rt, office, traced)?,
        None => false,
    };
    if !served && flush(rt, rt, &no_office()) < 8 {
        return Err(Fault::Unwritten);
    }
    Ok(())
}

// The program: what `rt` reads and prints are its records and lines, `errors` prints what went wrong; `traced` has the
// bytes written behind each line. The first argument is its own name.
pub fn run<R: Input + Print + Clock + Env, E: Print>(rt: &R, errors: &E, traced: bool) {
    if !matches!(rt.arg(1, &mut []), Err(FillError::NotPresent)) {
        flush(rt, errors, ABOUT);
        return;
    }
    if let Err(fault) = answer_all(rt, traced) {
        flush(rt, errors, fault.sentence());
    }
}
