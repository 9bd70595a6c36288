// What is counted.
ghost use Rattle.std.specs.Prelude.{◌≡◌};
ghost use Rattle.laws.specs.Upd.{ifb};

pub fn counted(counts: bool, n: u32) -> u32
    ensures { result ≡ ifb counts n 0 }
{
    if counts { n } else { 0 }
}
