// Copies of fixed bytes.

// A slice and a place stay two parameters: as in indexing, what the functions do is to look at one place of it.

ghost use Rattle.std.specs.Prelude.{◌≡◌, ◌+◌, ◌≤◌, length, take, drop};
ghost use Rattle.std.proofs.Math.Seq.{paste};

pub fn bytes_at<const N: usize>(bytes: &[u8], at: usize) -> [u8; N]
    requires { at + N ≤ length bytes.now }
    ensures { result ≡ take N (drop at bytes.now) }
{
    let mut out = [0; N];
    out.copy_from_slice(&bytes[at..at + N]);
    out
}

pub fn put_bytes<const N: usize>(bytes: &mut [u8], at: usize, from: [u8; N])
    requires { at + N ≤ length bytes.old }
    ensures { bytes.new ≡ paste bytes.old at from.entry N }
{
    bytes[at..at + N].copy_from_slice(&from);
}
