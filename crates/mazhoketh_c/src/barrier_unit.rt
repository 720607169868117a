// A model of the barrier unit, which the caller keeps in ten bytes.
ghost use Rattle.std.specs.Prelude.{◌≡◌};
ghost use Rattle.lent.specs.Word.{word, Answered};
ghost use Rattle.barrier.specs.Registers.{after_write};
ghost use Rattle.board.specs.Unit.{unit_in, unit_bytes, write_unit_reply, read_unit_reply, line_reply, releases_reply};

// A byte is written to a register.
#[unsafe(no_mangle)]
pub extern "C" fn mzk_barrier_write(unit: &mut [u8], address: u32, byte: u8) -> u64
    ensures { Answered (write_unit_reply unit.old address) (unit_bytes (after_write (unit_in unit.old) address byte)) unit.old result unit.new }
{
    mazhoketh::barrier_unit::mzk_barrier_write(unit, address, byte)
}

// The byte that a register reads.
#[unsafe(no_mangle)]
pub extern "C" fn mzk_barrier_read(unit: &[u8], address: u32) -> u64
    ensures { result ≡ word (read_unit_reply unit.now address) }
{
    mazhoketh::barrier_unit::mzk_barrier_read(unit, address)
}

// 1 while the interrupt line is up.
#[unsafe(no_mangle)]
pub extern "C" fn mzk_barrier_line(unit: &[u8]) -> u64
    ensures { result ≡ word (line_reply unit.now) }
{
    mazhoketh::barrier_unit::mzk_barrier_line(unit)
}

// How often all have come.
#[unsafe(no_mangle)]
pub extern "C" fn mzk_barrier_releases(unit: &[u8]) -> u64
    ensures { result ≡ word (releases_reply unit.now) }
{
    mazhoketh::barrier_unit::mzk_barrier_releases(unit)
}
