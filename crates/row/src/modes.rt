// The modes of an office.
ghost use Rattle.std.specs.Prelude.{◌≡◌};
ghost use Rattle.rules.specs.State.{kind_of};
ghost use Rattle.row.specs.Modes.{meaning};

#[derive(Clone, Copy, PartialEq, Eq)]
pub enum Mode {
    None = 0,
    Fast = 1,
    Slow = 2,
}

// The kind of proposal that it waits for, 0 for none.
impl From<Mode> for u8 {
    ghost from_gives = { λ m n. n ≡ kind_of (meaning m) };

    fn from(mode: Mode) -> u8 {
        mode as u8
    }
}
