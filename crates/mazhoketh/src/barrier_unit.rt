// A model of the barrier unit, which the caller keeps in ten bytes.
ghost use Rattle.std.specs.Prelude.{◌≡◌};
ghost use Rattle.lent.specs.Word.{word, Answered};
ghost use Rattle.barrier.specs.Registers.{after_write};
ghost use Rattle.board.specs.Unit.{unit_in, unit_bytes, write_unit_reply, read_unit_reply, line_reply, releases_reply};

use board::{line_in, read_in, releases_in, write_in};

// A byte is written to a register.
pub fn mzk_barrier_write(unit: &mut [u8], address: u32, byte: u8) -> u64
    ensures { Answered (write_unit_reply unit.old address) (unit_bytes (after_write (unit_in unit.old) address byte)) unit.old result unit.new }
{
    write_in(unit, address, byte)
}

// The byte that a register reads.
pub fn mzk_barrier_read(unit: &[u8], address: u32) -> u64
    ensures { result ≡ word (read_unit_reply unit.now address) }
{
    read_in(unit, address)
}

// 1 while the interrupt line is up.
pub fn mzk_barrier_line(unit: &[u8]) -> u64
    ensures { result ≡ word (line_reply unit.now) }
{
    line_in(unit)
}

// How often all have come.
pub fn mzk_barrier_releases(unit: &[u8]) -> u64
    ensures { result ≡ word (releases_reply unit.now) }
{
    releases_in(unit)
}
