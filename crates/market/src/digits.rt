// A number's digits put into a text.

ghost use Rattle.std.specs.Prelude.{◌≡◌, ◌^◌, ◌<◌, ◌≤◌, length, take};
ghost use Rattle.market.specs.Text.{decimal};
ghost use Rattle.market.specs.Code.Puts.{PutBefore};

// A number's digits before a place, from the last to the first; and where they begin.
pub fn put_digits(text: &mut [u8], end: usize, v: u64) -> usize
    requires { (v < 10 ^ 19) × (length (decimal 19 v) ≤ end) × (end ≤ length text.old) }
    ensures digits { PutBefore (decimal 19 v) end result text.old text.new }
    ensures before { take result text.new ≡ take result text.old }
{
    let mut x = v;
    let mut i = end;
    // A turn takes a digit away: a number, and no range, is gone through.
    while 10 <= x {
        i -= 1;
        text[i] = (48 + x % 10) as u8;
        x /= 10;
    }
    i -= 1;
    text[i] = (48 + x) as u8;
    i
}
