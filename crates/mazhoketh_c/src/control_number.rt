// The control number of a list of forces.
ghost use Rattle.std.specs.Prelude.{◌≡◌};
ghost use Rattle.base.specs.Replies.{accepted};
ghost use Rattle.words.specs.LittleEndian.{signed};
ghost use Rattle.lent.specs.Word.{word};
ghost use Rattle.control.specs.ControlNumber.{control_number};

#[unsafe(no_mangle)]
pub extern "C" fn mzk_control(forces: &[u8]) -> u64
    ensures { result ≡ word (accepted (control_number (signed 8 forces.now))) }
{
    mazhoketh::control_number::mzk_control(forces)
}
