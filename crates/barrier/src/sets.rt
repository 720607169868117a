// Sets of sixteen workers: bit 0 for worker 0, low byte first.
ghost use Rattle.std.specs.Prelude.{◌≡◌, ◌+◌, ◌*◌, ◌/◌, ◌%◌};
ghost use Rattle.barrier.specs.Bits.{has_bit};

// The two bytes of a set.
pub fn low(set: u16) -> u8
    ensures { result ≡ set % 256 }
{
    set.to_le_bytes()[0]
}

pub fn high(set: u16) -> u8
    ensures { result ≡ set / 256 }
{
    set.to_le_bytes()[1]
}

// The set of two bytes.
pub fn set_of(low: u8, high: u8) -> u16
    ensures { result ≡ high * 256 + low }
{
    u16::from_le_bytes([low, high])
}

// Bit 0 of a byte.
pub fn bit_0(byte: u8) -> bool
    ensures { result ≡ has_bit byte 0 }
{
    byte & 1 == 1
}
