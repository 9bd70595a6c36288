// Numbers as bytes, most significant byte first; inner to this crate.
ghost use Rattle.std.specs.Prelude.{◌≡◌, ◌+◌, ◌*◌, ◌≤◌, length};
ghost use Rattle.std.proofs.lemmas.List.Edits.{sets};
ghost use Rattle.laws.specs.Big.{big4, big8, bytes_all};
ghost use Rattle.laws.specs.Tab.{tab};

pub fn get32(bytes: &[u8], at: usize) -> u32
    requires { at + 4 ≤ length bytes.now }
    ensures { result ≡ big4 bytes.now at }
{
    let b = &bytes[at..at + 4];
    u32::from_be_bytes([b[0], b[1], b[2], b[3]])
}

pub fn get64(bytes: &[u8], at: usize) -> u64
    requires { at + 8 ≤ length bytes.now }
    ensures { result ≡ big8 bytes.now at }
{
    let b = &bytes[at..at + 8];
    u64::from_be_bytes([b[0], b[1], b[2], b[3], b[4], b[5], b[6], b[7]])
}

// Sixteen numbers, office 0 first.
pub fn get_sixteen(bytes: &[u8], at: usize) -> [u32; 16]
    requires { at + 64 ≤ length bytes.now }
    ensures { result ≡ tab 16 (λ k. big4 bytes.now (at + 4 * k)) }
{
    let mut numbers = [0; 16];
    for (k, n) in numbers.iter_mut().enumerate() {
        *n = get32(bytes, at + 4 * k);
    }
    numbers
}

pub fn put(out: &mut [u8], at: usize, bytes: &[u8])
    requires { at + length bytes.now ≤ length out.old }
    ensures { out.new ≡ sets out.old at bytes.now }
{
    out[at..at + bytes.len()].copy_from_slice(bytes);
}

// Sixteen numbers, office 0 first.
pub fn put_sixteen(out: &mut [u8], at: usize, numbers: &[u32; 16])
    requires { at + 64 ≤ length out.old }
    ensures { out.new ≡ sets out.old at (bytes_all numbers.now) }
{
    for (k, n) in numbers.iter().enumerate() {
        put(out, at + 4 * k, &n.to_be_bytes());
    }
}
