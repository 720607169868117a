// The barrier unit's calls on bytes: ten of them are loaded as a unit, the model is asked, and after a write stored.
#![tactic(auto)]

mod kept;

ghost use Rattle.std.specs.Prelude.{◌≡◌};
ghost use Rattle.base.specs.Replies.{lent};
ghost use Rattle.base.specs.Verdicts.{reply_of};
ghost use Rattle.lent.specs.Word.{word, Answered};
ghost use Rattle.barrier.specs.Registers.{after_write};
ghost use Rattle.board.specs.Unit.{unit_in, unit_bytes, write_unit_reply, read_unit_reply, line_reply, releases_reply};
ghost use Rattle.board.specs.Code.Reached.{IsReached};

use barrier::{Barrier, LAST};
use base::{Kind, Refusal};
use kept::{load, store};
use lent::word::word_of;

const NO_REGISTER: Refusal = Refusal {
    kind: Kind::NoRegister,
    place: 0,
};

// The unit that bytes hold, for a call that names a register.
#[tactic(auto, unfolding(base::specs::Replies::in_turn))]
fn reached(unit: &[u8], address: u32) -> Result<Barrier, Refusal>
    ensures { IsReached unit.now address result }
{
    if LAST < address {
        return Err(NO_REGISTER);
    }
    load(unit)
}

#[tactic(auto, unfolding(base::specs::Replies::in_turn, base::specs::Replies::lent, barrier::specs::Registers::addressed, crate::specs::Unit::write_unit_reply))]
fn write(unit: &mut [u8], address: u32, byte: u8) -> Result<u32, Refusal>
    ensures { (reply_of result ≡ write_unit_reply unit.old address) × (unit.new ≡ lent (write_unit_reply unit.old address) (unit_bytes (after_write (unit_in unit.old) address byte)) unit.old) }
{
    let mut held = reached(unit, address)?;
    held.write(address, byte)?;
    store(held, unit);
    Ok(0)
}

// A byte is written to a register.
pub fn write_in(unit: &mut [u8], address: u32, byte: u8) -> u64
    ensures { Answered (write_unit_reply unit.old address) (unit_bytes (after_write (unit_in unit.old) address byte)) unit.old result unit.new }
{
    word_of(write(unit, address, byte))
}

// The byte that a register reads.
#[tactic(auto, unfolding(base::specs::Replies::in_turn, barrier::specs::Registers::addressed, crate::specs::Unit::read_unit_reply))]
pub fn read_in(unit: &[u8], address: u32) -> u64
    ensures { result ≡ word (read_unit_reply unit.now address) }
{
    word_of(reached(unit, address).and_then(|held| held.read(address)))
}

// The interrupt line: 1 while it is up.
#[tactic(auto, unfolding(base::specs::Replies::in_turn, crate::specs::Unit::line_reply))]
pub fn line_in(unit: &[u8]) -> u64
    ensures { result ≡ word (line_reply unit.now) }
{
    word_of(load(unit).map(|held| u32::from(held.line())))
}

// The count of releases.
#[tactic(auto, unfolding(base::specs::Replies::in_turn, crate::specs::Unit::releases_reply))]
pub fn releases_in(unit: &[u8]) -> u64
    ensures { result ≡ word (releases_reply unit.now) }
{
    word_of(load(unit).map(|held| held.releases))
}
