// The output of an event: the bytes lent, where the next record goes, and the room that each record names.
ghost use Rattle.std.specs.Prelude.{◌+◌, ◌≤◌, length};
ghost use Rattle.event_parts.specs.Wrote.{Wrote};

use record_bytes::Record;

#[derive(Drop)]
pub struct Output<'a> {
    pub bytes: &'a mut [u8],
    pub at: usize,
    pub room: u8,
}

impl Output<'_> {
    // A record behind those before it.
    pub fn write<R: Record>(&mut self, r: R)
        requires { self.old.at + R.LENGTH ≤ length self.old.bytes.now }
        ensures { Wrote (R.encoded r) self.old self.new }
    {
        self.at += record_bytes::write(self.bytes, self.at, r);
    }
}
