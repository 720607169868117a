// Decimal digits at a position of a text, however many there are.

ghost use Rattle.std.specs.Prelude.{◌≡◌, ◌+◌, ◌*◌, ◌<◌, min, length, drop};
ghost use Rattle.market.specs.Fields.{digits, value_of};
ghost use Rattle.numbers.specs.Code.Lines.{many};

use scan::classes::{DIGIT, class_of};

// More than any number of 64 bits: what is told of a larger value.
const MANY: u64 = 10000000000000000000;

// A tenth of it.
const TENTH: u64 = 1000000000000000000;

// The value of some digits, and the position after them.
#[derive(Clone, Copy)]
pub(crate) struct Digits {
    pub(crate) value: u64,
    pub(crate) next: usize,
}

// A value with one digit more.
fn more(value: u64, digit: u64) -> u64
    requires { digit < 10 }
    ensures { result ≡ min (value * 10 + digit) many }
{
    if TENTH <= value {
        return MANY;
    }
    value * 10 + digit
}

pub(crate) fn read_digits(text: &[u8], at: usize) -> Digits
    ensures { (result.value ≡ min (value_of 0 (digits (drop at text.now))) many) × (result.next ≡ at + length (digits (drop at text.now))) }
{
    let mut value: u64 = 0;
    for i in at..text.len() {
        let b = text[i];
        if class_of(b) != DIGIT {
            return Digits { value, next: i };
        }
        value = more(value, b as u64 - 48);
    }
    Digits {
        value,
        next: at.max(text.len()),
    }
}
