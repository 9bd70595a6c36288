// What the program holds from turn to turn, inner to it.
use buffers::input::Place;
use buffers::output::BUFFER;

// Why the turns end before the input does: it could not be read further, or the output not written.
#[derive(Clone, Copy, PartialEq, Eq)]
pub enum Fault {
    Unread,
    Unwritten,
}

impl Fault {
    // One plain sentence; the program then ends. No Display: `flush` tries again where `print` gives up.
    pub fn sentence(self) -> &'static [u8] {
        match self {
            Fault::Unread => b"The input cannot be read.\n",
            Fault::Unwritten => b"The output cannot be written.\n",
        }
    }
}

// The office served and its table, what is read and not answered yet, room for what one event writes, what is answered
// and not written yet, and where the program stands in its two buffers; traced, a line shows the bytes written.
// `Ready` is no invariant: that there is a number for one record more, `TurnReady.number`, may end with the last turn.
#[derive(Drop)]
pub struct Session {
    pub office: u8,
    pub traced: bool,
    pub table: [u32; step::WORDS],
    pub input: [u8; BUFFER],
    pub out: [u8; step::ROOM],
    pub output: [u8; BUFFER],
    pub place: Place,
}
