// The control number of a list of forces: sums and products that wrap at 32 bits.
#![tactic(auto)]

ghost use Rattle.std.specs.Prelude.{◌≡◌};
ghost use Rattle.words.specs.LittleEndian.{signed};
ghost use Rattle.control.specs.ControlNumber.{control_number};

use words::word::Word;

// The bytes of a force. The first four of them, the low ones, are its remainder.
const FORCE: usize = 8;

// Forces of eight bytes each, however many there are.
pub fn control(forces: &[u8]) -> u32
    ensures { result ≡ control_number (signed 8 forces.now) }
{
    let mut sum: u32 = 0;
    let mut weight: u32 = 0;
    // By index: a loop over the chunks is not vectorised.
    for i in 0..forces.len() / FORCE {
        weight = weight.wrapping_add(1);
        sum = sum.wrapping_add(weight.wrapping_mul(u32::read(forces, i * FORCE)));
    }
    sum
}
