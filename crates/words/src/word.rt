// A number and its bytes, the low byte first: what one number of each type is read from and stored as.
ghost use Rattle.std.specs.Prelude.{◌≡◌, ℕ, ◌+◌, ◌≤◌, ◌<◌, List, length, take, drop};
ghost use Rattle.std.proofs.lemmas.List.Edits.{sets};
ghost use Rattle.words.specs.LittleEndian.{number, bytes_of, signed_number, signed_bytes_of};
ghost use Rattle.std.proofs.Common.{rules};
ghost use Rattle.words.specs.Code.Sizes.{length-bytes_of, length-signed_bytes_of};

pub trait Word: Copy {
    // how many bytes it takes
    ghost WIDTH: { ℕ };

    // the number that bytes stand for, and the bytes that stand for a number
    ghost of_bytes: { List ℕ → Self };

    ghost to_bytes: { Self → List ℕ };

    const WIDTH: usize;

    // The number of the bytes from a place on.
    fn read(bytes: &[u8], at: usize) -> Self
        requires { at + WIDTH ≤ length bytes.now }
        ensures { result ≡ of_bytes (take WIDTH (drop at bytes.now)) };

    // The bytes of a number, stored from a place on.
    fn write(self, bytes: &mut [u8], at: usize)
        requires { at + WIDTH ≤ length bytes.old }
        ensures { bytes.new ≡ sets bytes.old at (to_bytes self) };

    ghost some: { 0 < WIDTH };

    ghost size: { (v : Self) → length (to_bytes v) ≡ WIDTH };
}

impl Word for u32 {
    ghost WIDTH = { 4 };

    ghost of_bytes = { number };

    ghost to_bytes = { bytes_of 4 };

    ghost some = { Prim.search rules };

    ghost size = { length-bytes_of 4 };

    const WIDTH: usize = 4;

    fn read(bytes: &[u8], at: usize) -> u32 {
        u32::from_le_bytes([bytes[at], bytes[at + 1], bytes[at + 2], bytes[at + 3]])
    }

    fn write(self, bytes: &mut [u8], at: usize) {
        bytes[at..at + 4].copy_from_slice(&self.to_le_bytes());
    }
}

impl Word for u64 {
    ghost WIDTH = { 8 };

    ghost of_bytes = { number };

    ghost to_bytes = { bytes_of 8 };

    ghost some = { Prim.search rules };

    ghost size = { length-bytes_of 8 };

    const WIDTH: usize = 8;

    fn read(bytes: &[u8], at: usize) -> u64 {
        u64::from_le_bytes([
            bytes[at],
            bytes[at + 1],
            bytes[at + 2],
            bytes[at + 3],
            bytes[at + 4],
            bytes[at + 5],
            bytes[at + 6],
            bytes[at + 7],
        ])
    }

    fn write(self, bytes: &mut [u8], at: usize) {
        bytes[at..at + 8].copy_from_slice(&self.to_le_bytes());
    }
}

impl Word for i32 {
    ghost WIDTH = { 4 };

    ghost of_bytes = { signed_number 4 };

    ghost to_bytes = { signed_bytes_of 4 };

    ghost some = { Prim.search rules };

    ghost size = { length-signed_bytes_of 4 };

    const WIDTH: usize = 4;

    fn read(bytes: &[u8], at: usize) -> i32 {
        u32::read(bytes, at).cast_signed()
    }

    fn write(self, bytes: &mut [u8], at: usize) {
        self.cast_unsigned().write(bytes, at);
    }
}

impl Word for i64 {
    ghost WIDTH = { 8 };

    ghost of_bytes = { signed_number 8 };

    ghost to_bytes = { signed_bytes_of 8 };

    ghost some = { Prim.search rules };

    ghost size = { length-signed_bytes_of 8 };

    const WIDTH: usize = 8;

    fn read(bytes: &[u8], at: usize) -> i64 {
        u64::read(bytes, at).cast_signed()
    }

    fn write(self, bytes: &mut [u8], at: usize) {
        self.cast_unsigned().write(bytes, at);
    }
}
