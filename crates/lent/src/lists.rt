// The list that bytes stand for, decoded into an array: as far as the array reaches.
ghost use Rattle.std.specs.Prelude.{◌≡◌, length, take};
ghost use Rattle.words.specs.LittleEndian.{decoded};

use words::lists::load;
use words::word::Word;

pub fn decode<'a, W: Word>(bytes: &[u8], array: &'a mut [W]) -> &'a [W]
    ensures { result.now ≡ take (length array.old) (decoded W.of_bytes W.WIDTH bytes.now) }
{
    let count = load(bytes, array);
    &array[..count]
}
