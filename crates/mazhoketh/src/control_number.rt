// The control number of a list of forces.
ghost use Rattle.std.specs.Prelude.{◌≡◌};
ghost use Rattle.base.specs.Replies.{accepted};
ghost use Rattle.words.specs.LittleEndian.{signed};
ghost use Rattle.lent.specs.Word.{word};
ghost use Rattle.control.specs.ControlNumber.{control_number};

use control::control;

#[tactic(auto, unfolding(lent::specs::Word::word))]
pub fn mzk_control(forces: &[u8]) -> u64
    ensures { result ≡ word (accepted (control_number (signed 8 forces.now))) }
{
    u64::from(control(forces))
}
