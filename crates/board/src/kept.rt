// A unit kept in bytes: its six registers, then the count of releases.
ghost use Rattle.std.specs.Prelude.{◌≡◌, ◌≤◌, length};
ghost use Rattle.words.specs.LittleEndian.{stored};
ghost use Rattle.board.specs.Unit.{unit_size, unit_bytes};
ghost use Rattle.board.specs.Code.Reached.{IsHeld};

use barrier::Barrier;
use barrier::sets::{bit_0, high, low, set_of};
use base::{Kind, Refusal};
use words::word::Word;

// The bytes of a unit, and where its count of releases begins.
const SIZE: usize = 10;

const RELEASES: usize = 6;

const TOO_SHORT: Refusal = Refusal {
    kind: Kind::TooShort,
    place: SIZE as u32,
};

#[tactic(auto, unfolding(base::specs::Replies::in_turn, crate::specs::Unit::unit_in))]
pub(crate) fn load(bytes: &[u8]) -> Result<Barrier, Refusal>
    ensures { IsHeld bytes.now result }
{
    if bytes.len() < SIZE {
        return Err(TOO_SHORT);
    }
    Ok(Barrier {
        members: set_of(bytes[0], bytes[1]),
        arrived: set_of(bytes[2], bytes[3]),
        status: bit_0(bytes[4]),
        enable: bit_0(bytes[5]),
        releases: u32::read(bytes, RELEASES),
    })
}

pub(crate) fn store(unit: Barrier, bytes: &mut [u8])
    requires { unit_size ≤ length bytes.old }
    ensures { bytes.new ≡ stored (unit_bytes unit) bytes.old }
{
    bytes[0] = low(unit.members);
    bytes[1] = high(unit.members);
    bytes[2] = low(unit.arrived);
    bytes[3] = high(unit.arrived);
    bytes[4] = u8::from(unit.status);
    bytes[5] = u8::from(unit.enable);
    unit.releases.write(bytes, RELEASES);
}
