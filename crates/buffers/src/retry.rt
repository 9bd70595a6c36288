// A call that failed, inner to the program: whether it is tried again.
ghost use Rattle.std.specs.Prelude.{◌≡◌, false, OnOk};

use std::io::ErrorKind;
use std::rt::Clock;
use std::time::Duration;
use std::{io, thread};

fn pause(clock: &impl Clock) {
    thread::sleep(clock, Duration::from_millis(5));
}

// Whether a call that answered so is to be tried again: at once where a signal came in between, after a pause where the
// other end is not ready; not where it moved bytes, met the end or failed for good.
pub fn again(clock: &impl Clock, answer: &io::Result<usize>) -> bool
    ensures { OnOk answer.now (result ≡ false) }
{
    let Err(error) = answer else {
        return false;
    };
    let kind = error.kind();
    if kind == ErrorKind::WouldBlock {
        pause(clock);
        return true;
    }
    kind == ErrorKind::Interrupted
}
