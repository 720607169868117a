// The numbers of a head.
ghost use Rattle.std.specs.Prelude.{◌≡◌};
ghost use Rattle.plan.specs.Sound.{max_workers};
ghost use Rattle.tables.specs.Code.Laid.{Rising};
ghost use Rattle.preparing.specs.Code.Rows.{HeadTo};

use plan::MAX_WORKERS;
use prepared::MARK;
use steps::accesses;
use tables::FIRSTS;

// The numbers of a head: four, and two for each worker.
pub const NUMBERS: usize = 36;

// The head's numbers, by where each worker's updates begin.
pub fn head_numbers(n: u32, workers: u32, first: &[u32; FIRSTS]) -> [u32; NUMBERS]
    requires { Rising first.now }
    ensures { HeadTo max_workers n workers first.now result }
{
    let mut head = [0u32; NUMBERS];
    head[0] = MARK;
    head[1] = n;
    head[2] = workers;
    head[3] = first[MAX_WORKERS];
    for w in 0..MAX_WORKERS {
        head[4 + w] = accesses(first, w);
        head[20 + w] = first[w];
    }
    head
}
