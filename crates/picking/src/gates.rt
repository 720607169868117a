// The gates of a prepared list: whether a row may be worked at these counts.
ghost use Rattle.std.specs.Prelude.{◌≡◌, ◌+◌, ◌*◌, ◌≤◌, length};
ghost use Rattle.prepared.specs.Gates.{behind};
ghost use Rattle.picking.specs.Code.Reads.{gate_at, shut_at};

use crate::places::word_at;
use plan::MAX_WORKERS;
use prepared::GATE;

// Some worker has made fewer accesses than its number, which stand from a place on.
fn is_behind(list: &[u8], at: usize, made: &[u32; MAX_WORKERS]) -> bool
    requires { at + 64 ≤ length list.now }
    ensures { result ≡ behind made.now (gate_at list.now at) 16 }
{
    let mut late = false;
    for v in 0..MAX_WORKERS {
        late |= made[v] < word_at(list, at + v * 4);
    }
    late
}

// The gate of a row is shut; a row past the last one has none.
pub fn is_shut(
    list: &[u8],
    gates: usize,
    rows: usize,
    row: usize,
    made: &[u32; MAX_WORKERS],
) -> bool
    requires { gates + rows * 64 ≤ length list.now }
    ensures { result ≡ shut_at list.now gates rows row made.now }
{
    if rows <= row {
        return false;
    }
    is_behind(list, gates + row * GATE, made)
}
