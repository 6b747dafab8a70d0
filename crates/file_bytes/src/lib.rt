// Fields of bytes at the front of what is left of a file: public keys, credentials, addresses. Only what was judged
// good is read.

#![tactic(auto)]

ghost use Rattle.std.specs.Prelude.{◌≡◌, true, [], ◌∷◌, ◌+◌, ◌*◌, ◌/◌, ◌<◌, length, slice_index};
ghost use Rattle.file_format.specs.Words.{words};
ghost use Rattle.file_format.specs.Fields.{field};

// The three bytes of word k, which is there. It stands in the file as the third, the second, the first and its kind.
fn three_bytes(rest: &[u8], k: usize) -> [u8; 3]
    requires { k < length rest.now / 4 }
    ensures { result
        ≡ slice_index rest.now (k * 4 + 2)
        ∷ slice_index rest.now (k * 4 + 1)
        ∷ slice_index rest.now (k * 4)
        ∷ [] }
{
    let at = k * 4;
    [rest[at + 2], rest[at + 1], rest[at]]
}

// A field, as many bytes as the lent buffer has: its full words, and a last one where some bytes are left.
pub fn put_field(rest: &[u8], bytes: &mut [u8])
    requires { (field (length bytes.old)).ok (words rest.now) ≡ true }
    ensures { bytes.new ≡ (field (length bytes.old)).value (words rest.now) }
{
    let full = bytes.len() / 3;
    for i in 0..full {
        bytes[i * 3..i * 3 + 3].copy_from_slice(&three_bytes(rest, i));
    }
    let left = bytes.len() % 3;
    if left > 0 {
        let last = three_bytes(rest, full);
        bytes[full * 3..].copy_from_slice(&last[..left]);
    }
}

// A field by value: a key, credentials or an address.
pub fn field_at<const N: usize>(rest: &[u8]) -> [u8; N]
    requires { (field N).ok (words rest.now) ≡ true }
    ensures { result ≡ (field N).value (words rest.now) }
{
    let mut out = [0u8; N];
    put_field(rest, &mut out);
    out
}
