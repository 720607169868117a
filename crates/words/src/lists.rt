// Lists of numbers in bytes: loaded or stored, as many as both lists hold. The rest of what is written is unchanged.
ghost use Rattle.std.specs.Prelude.{◌≡◌, ◌/◌, min, length, take};
ghost use Rattle.words.specs.LittleEndian.{decoded, encoded, stored};

use crate::word::Word;

// The numbers that bytes hold. They are loaded two a turn, so the index doesn't step by one: a loop of one becomes a
// call of memcpy, which is slow for some addresses. Both are read before one is stored: else numbers of eight bytes
// are moved one by one.
pub fn load<W: Word>(bytes: &[u8], out: &mut [W]) -> usize
    ensures { (result ≡ min (length bytes.now / W.WIDTH) (length out.old)) × (out.new ≡ stored (take result (decoded W.of_bytes W.WIDTH bytes.now)) out.old) }
{
    let width = W::WIDTH;
    let count = (bytes.len() / width).min(out.len());
    let mut k = 0;
    while k + 1 < count {
        let first = W::read(bytes, k * width);
        let second = W::read(bytes, (k + 1) * width);
        out[k] = first;
        out[k + 1] = second;
        k += 2;
    }
    if k < count {
        out[k] = W::read(bytes, k * width);
    }
    count
}

// The bytes of numbers.
pub fn store<W: Word>(numbers: &[W], bytes: &mut [u8])
    ensures { bytes.new ≡ stored (encoded W.to_bytes (take (length bytes.old / W.WIDTH) numbers.now)) bytes.old }
{
    let width = W::WIDTH;
    for k in 0..numbers.len().min(bytes.len() / width) {
        numbers[k].write(bytes, k * width);
    }
}
