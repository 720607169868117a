// Numbers and lines, measured and put into a lent text.

ghost use Rattle.std.specs.Prelude.{◌≡◌, [], ◌∷◌, ◌+◌, ◌^◌, ◌≤◌, ◌<◌, nat_abs, length};
ghost use Rattle.matrix.specs.Limits.{max_rows};
ghost use Rattle.market.specs.Bytes.{header};
ghost use Rattle.market.specs.Text.{natural, integer, line_of};
ghost use Rattle.writer.specs.Code.Puts.{Put, digit_at};

use market::HEADER;
use market::digits::put_digits;

// How many digits a number of at most `most` digits has: one, and one for each power of ten from 10 on that it has
// reached.
fn width(v: u32, most: usize) -> usize
    requires { (1 ≤ most) × (most ≤ 10) × (v < 10 ^ most) }
    ensures { result ≡ length (natural v) }
{
    let x = v as u64;
    let mut digits: usize = 1;
    let mut power: u64 = 10;
    for _k in 1..most {
        digits += (power <= x) as usize;
        power *= 10;
    }
    digits
}

// A byte, and the place after it.
pub fn put_byte(text: &mut [u8], at: usize, b: u8) -> usize
    requires { at + 1 ≤ length text.old }
    ensures { Put (b ∷ []) at result text.old text.new }
{
    text[at] = b;
    at + 1
}

// A digit of a number at a power of ten, if the number has reached it, and the place after it.
fn put_digit(text: &mut [u8], at: usize, v: u32, power: u32) -> usize
    requires { (1 ≤ power) × (at + length (digit_at power v) ≤ length text.old) }
    ensures { Put (digit_at power v) at result text.old text.new }
{
    if v < power {
        return at;
    }
    put_byte(text, at, (48 + v / power % 10) as u8)
}

// A row's or column's number, of at most four digits that do not wait for each other, and the place after it.
fn put_index(text: &mut [u8], at: usize, v: u32) -> usize
    requires { (v ≤ max_rows) × (at + length (natural v) ≤ length text.old) }
    ensures { Put (natural v) at result text.old text.new }
{
    let hundreds = put_digit(text, at, v, 1000);
    let tens = put_digit(text, hundreds, v, 100);
    let ones = put_digit(text, tens, v, 10);
    put_byte(text, ones, (48 + v % 10) as u8)
}

// A number's digits, and the place after them.
pub fn put_number(text: &mut [u8], at: usize, v: u32) -> usize
    requires { at + length (natural v) ≤ length text.old }
    ensures { Put (natural v) at result text.old text.new }
{
    let end = at + width(v, 10);
    put_digits(text, end, v as u64);
    end
}

// How many bytes a value takes.
fn integer_width(v: i32) -> usize
    ensures { result ≡ length (integer v) }
{
    width(v.unsigned_abs(), 10) + (v < 0) as usize
}

// A value, and the place after it. A sign is put first; the digits of a value that has none are put over it.
fn put_integer(text: &mut [u8], at: usize, v: i32) -> usize
    requires { at + length (integer v) ≤ length text.old }
    ensures { Put (integer v) at result text.old text.new }
{
    text[at] = b'-';
    let first = at + (v < 0) as usize;
    put_number(text, first, v.unsigned_abs())
}

// How many bytes a line takes.
pub(crate) fn line_width(r: u32, c: u32, v: i32) -> usize
    requires { (r ≤ max_rows) × (c ≤ max_rows) }
    ensures { result ≡ length (line_of r c v) }
{
    width(r, 4) + width(c, 4) + integer_width(v) + 3
}

// A line, and the place after it.
pub(crate) fn put_line(text: &mut [u8], at: usize, r: u32, c: u32, v: i32) -> usize
    requires { (r ≤ max_rows) × (c ≤ max_rows) × (at + length (line_of r c v) ≤ length text.old) }
    ensures { Put (line_of r c v) at result text.old text.new }
{
    let row = put_index(text, at, r);
    let space = put_byte(text, row, b' ');
    let column = put_index(text, space, c);
    let gap = put_byte(text, column, b' ');
    let value = put_integer(text, gap, v);
    put_byte(text, value, b'\n')
}

// Line 1, and the place after it.
pub(crate) fn put_header(text: &mut [u8]) -> usize
    requires { 51 ≤ length text.old }
    ensures { Put header 0 result text.old text.new }
{
    text[..51].copy_from_slice(&HEADER);
    51
}
