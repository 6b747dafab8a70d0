// The fields of a file, written into a lent buffer from word k on. The caller sees to it that they fit.

// A buffer and a word of it stay two parameters. A writer that held both would have to say the same of the whole
// buffer, whose other words stay as they are, and of its place besides; `&mut out[k * 4..]` would put the product into
// every call, and each caller would join the part to the whole again. That the words have room stays a clause, as
// storing into a slice asks for it; a count has 28 bits.

#![tactic(auto)]

ghost use Rattle.std.specs.Prelude.{◌≡◌, [], ◌∷◌, ◌+◌, ◌*◌, ◌/◌, ◌≤◌, ◌<◌, ◌^◌, length, get_or, take};
ghost use Rattle.file_format.specs.Words.{word, words, end_word};
ghost use Rattle.file_format.specs.Fields.{number, flag, three_bytes, field_words, each};
ghost use Rattle.file_format.specs.Calls.{signature};
ghost use Rattle.file_format.specs.PutLaws.{put};
ghost use Rattle.file_stores.specs.Laws.{field_word};

// ---- one word

pub fn put_word(out: &mut [u8], k: usize, w: u32)
    requires { (k + 1) * 4 ≤ length out.old }
    ensures { out.new ≡ put out.old k (w ∷ []) }
{
    let at = k * 4;
    out[at..at + 4].copy_from_slice(&w.to_le_bytes());
}

// A count, kind 2.
pub fn put_count(out: &mut [u8], k: usize, n: usize)
    requires k_in_bounds { (k + 1) * 4 ≤ length out.old }
    requires n_bound { n < 2 ^ 28 }
    ensures { out.new ≡ put out.old k (word 2 n ∷ []) }
{
    put_word(out, k, 0x2000_0000 + n as u32);
}

// A flag, kind 7.
pub fn put_flag(out: &mut [u8], k: usize, f: u64)
    requires k_in_bounds { (k + 1) * 4 ≤ length out.old }
    requires f_bound { f < 2 }
    ensures { out.new ≡ put out.old k (flag.write f) }
{
    put_word(out, k, 0x7000_0000 + f as u32);
}

// The flag of a good signature.
pub fn put_signature(out: &mut [u8], k: usize, valid: bool)
    requires { (k + 1) * 4 ≤ length out.old }
    ensures { out.new ≡ put out.old k (signature.write valid) }
{
    put_flag(out, k, u64::from(valid));
}

// ---- numbers, kinds 3, 4, 5

pub fn put_number(out: &mut [u8], k: usize, n: u64)
    requires { (k + 3) * 4 ≤ length out.old }
    ensures { out.new ≡ put out.old k (number.write n) }
{
    put_word(out, k, 0x3000_0000 + (n % 0x1000_0000) as u32);
    put_word(
        out,
        k + 1,
        0x4000_0000 + (n / 0x1000_0000 % 0x1000_0000) as u32,
    );
    put_word(
        out,
        k + 2,
        0x5000_0000 + (n / 0x1000_0000 / 0x1000_0000) as u32,
    );
}

// All numbers of `from`, one behind another.
pub fn put_numbers(out: &mut [u8], k: usize, from: &[u64])
    requires { (k + length from.now * 3) * 4 ≤ length out.old }
    ensures { out.new ≡ put out.old k (each number.write from.now) }
{
    for (i, n) in from.iter().enumerate() {
        put_number(out, k + i * 3, *n);
    }
}

// ---- a field of bytes, kind 6

// Byte j; 0 behind the end.
fn byte_at(from: &[u8], j: usize) -> u8
    ensures { result ≡ get_or from.now j 0 }
{
    from.get(j).copied().unwrap_or(0)
}

fn three_bytes(a: u8, b: u8, c: u8) -> u32
    ensures { result ≡ three_bytes a b c }
{
    0x6000_0000 + ((a as u32 * 256 + b as u32) * 256 + c as u32)
}

// Word i of the field; the last one ends in zero bytes.
fn field_word(from: &[u8], i: usize) -> u32
    requires { i ≤ 2 ^ 62 }
    ensures { result ≡ field_word from.now i }
{
    let at = i * 3;
    let a = byte_at(from, at);
    let b = byte_at(from, at + 1);
    let c = byte_at(from, at + 2);
    three_bytes(a, b, c)
}

// All bytes of `from`: a key, credentials or an address.
pub fn put_field(out: &mut [u8], k: usize, from: &[u8])
    requires { (k + (length from.now + 2) / 3) * 4 ≤ length out.old }
    ensures { out.new ≡ put out.old k (field_words from.now) }
{
    for i in 0..from.len().div_ceil(3) {
        put_word(out, k + i, field_word(from, i));
    }
}

// ---- the end word, kind 8

// The end word of the first n words, behind them.
pub fn put_end(out: &mut [u8], n: usize)
    requires { (n + 1) * 4 ≤ length out.old }
    ensures { out.new
        ≡ put out.old n (end_word (take n (words out.old)) ∷ []) }
{
    let sum = file_words::words_sum(out, n);
    put_word(out, n, 0x8000_0000 + sum % 0x1000_0000);
}
