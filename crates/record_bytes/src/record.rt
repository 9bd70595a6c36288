// What a kind of record says of itself: its mark, its length and its fields. `put`, which asks for room, is inner to
// this crate: every other calls `write`.
ghost use Rattle.std.specs.Prelude.{◌≡◌, ℕ, List, ◌+◌, ◌<◌, ◌≤◌, length};
ghost use Rattle.std.proofs.lemmas.List.Edits.{sets};
ghost use Rattle.records.specs.Layout.{sized, value_of};

pub trait Record: Copy {
    ghost MARK: { List ℕ };

    ghost LENGTH: { ℕ };

    // What bytes of that length say, and what a record is written as.
    ghost decoded: { List ℕ → Self };

    ghost encoded: { Self → List ℕ };

    const MARK: [u8; 2];

    const LENGTH: usize;

    // What the fields say; zeros where the length is another.
    fn decode(bytes: &[u8]) -> Self
        ensures { result ≡ decoded (sized LENGTH bytes.now) };

    // How many bytes it takes. A law cannot say so: a list of numbers has its length only in a value of the code.
    fn size(self) -> usize
        ensures own { result ≡ LENGTH }
        ensures whole { length (encoded self) ≡ LENGTH };

    // The record at a place that has room for it.
    fn put(self, out: &mut [u8], at: usize)
        requires { at + LENGTH ≤ length out.old }
        ensures { out.new ≡ sets out.old at (encoded self) };

    // Bytes too short to have a mark count as marked 0, and a length 0 as none.
    ghost marked: { 0 < value_of MARK };

    ghost some: { 0 < LENGTH };
}
