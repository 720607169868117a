// What 32 bits keep.
ghost use Rattle.std.specs.Prelude.{◌≡◌, ◌%◌, ◌^◌};

const MODULUS: usize = 4294967296;

pub(crate) fn low(n: usize) -> u32
    ensures { result ≡ n % 2 ^ 32 }
{
    (n % MODULUS) as u32
}
