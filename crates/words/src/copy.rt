// Bytes copied as they are.
ghost use Rattle.std.specs.Prelude.{◌≡◌, ◌+◌, ◌≤◌, length, take, drop};
ghost use Rattle.std.proofs.lemmas.List.Edits.{sets};

// Copies `count` bytes from `start` on to where `at` is. It stands beside `copy_from_slice`, since a caller proves the
// two bounds of this call, and of that one four, and since a loop asks C for no `memmove`, as that call does.
pub fn copy(from: &[u8], start: usize, count: usize, to: &mut [u8], at: usize)
    requires { (start + count ≤ length from.now) × (at + count ≤ length to.old) }
    ensures { to.new ≡ sets to.old at (take count (drop start from.now)) }
{
    for k in 0..count {
        to[at + k] = from[start + k];
    }
}
