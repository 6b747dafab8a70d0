// The fields of a file, read where they stand: whether the words at the front of lent bytes are one, and which. A word
// behind the end reads as 0, which is of no kind. A loop asks once whether all its words are there, and then stops at
// none: so the compiler takes several words at a time.

// A slice and a word stay two parameters of `behind`, `word_within` and `word_at`: as in indexing, what they do is to
// look at one place of it.

#![tactic(auto)]

ghost use Rattle.std.specs.Prelude.{◌≡◌, ◌+◌, ◌*◌, ◌/◌, ◌%◌, ◌^◌, ◌<◌, ◌≤◌, true, length, take, drop, slice_index};
ghost use Rattle.file_format.specs.Words.{words, is_word, wrapping_sum};
ghost use Rattle.file_format.specs.Fields.{number, flag, field, field_ok, many};
ghost use Rattle.file_format.specs.File.{ends};
ghost use Rattle.file_format.specs.Places.{number_at, count_at};

// ---- words

// The bytes from word k on; none behind the end.
pub fn behind(file: &[u8], k: usize) -> &[u8]
    ensures { words result.now ≡ drop k (words file.now) }
{
    let whole = file.len() / 4;
    &file[k.min(whole) * 4..]
}

// Word k, which is there.
pub fn word_within(file: &[u8], k: usize) -> u32
    requires { k < length file.now / 4 }
    ensures { result ≡ slice_index (words file.now) k }
{
    let at = k * 4;
    u32::from_le_bytes([file[at], file[at + 1], file[at + 2], file[at + 3]])
}

// Word k; 0 behind the end.
pub fn word_at(file: &[u8], k: usize) -> u32
    ensures { result ≡ slice_index (words file.now) k }
{
    if k < file.len() / 4 {
        return word_within(file, k);
    }
    0
}

pub fn is_word(kind: u32, limit: u32, w: u32) -> bool
    ensures { result ≡ is_word kind limit w }
{
    (w / 0x1000_0000 == kind) & (w % 0x1000_0000 < limit)
}

// ---- fields, at the front of what is left of a file

// Three words from word k on, which are there.
fn number_within(rest: &[u8], k: usize) -> bool
    requires { k + 3 ≤ length rest.now / 4 }
    ensures { result ≡ number.ok (drop k (words rest.now)) }
{
    let low = word_within(rest, k);
    let middle = word_within(rest, k + 1);
    let top = word_within(rest, k + 2);
    is_word(3, 0x1000_0000, low) & is_word(4, 0x1000_0000, middle) & is_word(5, 256, top)
}

pub fn number_ok(rest: &[u8]) -> bool
    ensures { result ≡ number.ok (words rest.now) }
{
    if rest.len() / 4 < 3 {
        return false;
    }
    number_within(rest, 0)
}

// n numbers.
pub fn numbers_ok(rest: &[u8], n: usize) -> bool
    ensures { result ≡ (many number n).ok (words rest.now) }
{
    if rest.len() / 12 < n {
        return false;
    }
    let mut good = true;
    for i in 0..n {
        good &= number_within(rest, i * 3);
    }
    good
}

pub fn flag_ok(rest: &[u8]) -> bool
    ensures { result ≡ flag.ok (words rest.now) }
{
    is_word(7, 2, word_at(rest, 0))
}

// n words of three bytes. A loop beside that of numbers_ok: a shared one over a closure would need longer clauses.
pub fn triples_ok(rest: &[u8], n: usize) -> bool
    ensures { result ≡ field_ok (n * 3) (words rest.now) }
{
    if rest.len() / 4 < n {
        return false;
    }
    let mut good = true;
    for i in 0..n {
        good &= is_word(6, 0x100_0000, word_within(rest, i));
    }
    good
}

// A field of n bytes: n / 3 full words, and one that ends in zero bytes where some bytes are left.
pub fn field_ok(rest: &[u8], n: usize) -> bool
    ensures { result ≡ (field n).ok (words rest.now) }
{
    let full = n / 3;
    let front = triples_ok(rest, full);
    let left = n % 3;
    if left == 0 {
        return front;
    }
    let last = word_at(rest, full);
    let kind = is_word(6, 0x100_0000, last);
    if left == 1 {
        return front & kind & (last % 65536 == 0);
    }
    front & kind & (last % 256 == 0)
}

// ---- what fields hold that were judged good

fn joined(low: u32, middle: u32, top: u32) -> u64
    requires low_bound { low < 2 ^ 28 }
    requires middle_bound { middle < 2 ^ 28 }
    requires top_bound { top < 256 }
    ensures { result ≡ low + middle * 2 ^ 28 + top * 2 ^ 56 }
{
    low as u64 + middle as u64 * 0x1000_0000 + top as u64 * 0x100_0000_0000_0000
}

pub fn number_at(rest: &[u8]) -> u64
    requires { number.ok (words rest.now) ≡ true }
    ensures { result ≡ number.value (words rest.now) }
{
    let low = word_within(rest, 0);
    let middle = word_within(rest, 1);
    let top = word_within(rest, 2);
    joined(low % 0x1000_0000, middle % 0x1000_0000, top % 0x1000_0000)
}

// The number from word k on. Beside `number_at`, since a pass over a file reads six a validator: a slice made for each
// took a quarter more time.
pub fn number_from(rest: &[u8], k: usize) -> u64
    requires there { k + 3 ≤ length rest.now / 4 }
    requires well_formed { number.ok (drop k (words rest.now)) ≡ true }
    ensures { result ≡ number_at (words rest.now) k }
{
    let lowest = word_within(rest, k);
    let middle = word_within(rest, k + 1);
    let top = word_within(rest, k + 2);
    joined(
        lowest % 0x1000_0000,
        middle % 0x1000_0000,
        top % 0x1000_0000,
    )
}

pub fn flag_at(rest: &[u8]) -> u32
    ensures { result ≡ flag.value (words rest.now) }
{
    word_at(rest, 0) % 0x1000_0000
}

// ---- counts

// The count, whatever the word's kind.
pub fn count_at(rest: &[u8]) -> usize
    ensures { result ≡ count_at (words rest.now) 0 }
{
    (word_at(rest, 0) % 0x1000_0000) as usize
}

pub fn count_ok(rest: &[u8]) -> bool
    ensures { result ≡ is_word 2 (2 ^ 28) (slice_index (words rest.now) 0) }
{
    is_word(2, 0x1000_0000, word_at(rest, 0))
}

// ---- the end word

// The wrapping sum of the first n words.
pub fn words_sum(file: &[u8], n: usize) -> u32
    requires { n ≤ length file.now / 4 }
    ensures { result ≡ wrapping_sum (take n (words file.now)) }
{
    let mut sum: u32 = 0;
    for i in 0..n {
        sum = sum.wrapping_add(word_within(file, i));
    }
    sum
}

// Whether the rest is the file's end word alone.
pub fn end_ok(file: &[u8], rest: &[u8]) -> bool
    ensures { result ≡ ends (words file.now) (words rest.now) }
{
    if rest.len() / 4 != 1 {
        return false;
    }
    let before = (file.len() / 4).saturating_sub(1);
    word_at(rest, 0) == 0x8000_0000 + words_sum(file, before) % 0x1000_0000
}
