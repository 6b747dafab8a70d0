// The first 85 words of a books file: the head, 19 settings, 9 scalars.
ghost use Rattle.std.specs.Prelude.{◌≡◌, ◌*◌, ◌^◌, ◌<◌, ◌≤◌, length};
ghost use Rattle.primitives.specs.Settings.{settings_of};
ghost use Rattle.file_format.specs.PutLaws.{put};
ghost use Rattle.books_writer.specs.Parts.{front_words};

use primitives::{Scalars, Settings};

pub fn put_front(out: &mut [u8], settings: Settings, scalars: Scalars)
    requires { 85 * 4 ≤ length out.old }
    ensures front { out.new ≡ put out.old 0 (front_words (settings_of settings) scalars) }
    ensures start { scalars.deposit_receipts_start_index < 2 ^ 64 }
{
    let first: [u64; 19] = settings.into();
    let second: [u64; 13] = scalars.into();
    file_stores::put_word(out, 0, 0x1000_0001);
    file_stores::put_numbers(out, 1, &first);
    file_stores::put_numbers(out, 58, &second[..9]); // each count stands before its list
}
