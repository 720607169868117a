// The region of a group, ring after ring: a ring's rows are one join further from the group than those before.
ghost use Rattle.std.specs.Prelude.{◌≡◌, true, map, ℕ, ◌++◌, ◌-◌, ◌<◌, ◌≤◌, length, get_or, drop};
ghost use Rattle.std.proofs.Math.Seq.{slice};
ghost use Rattle.base.specs.Lists.{is_in, concat, bit};
ghost use Rattle.base.specs.Near.{near};
ghost use Rattle.matrix.specs.Limits.{max_rows};
ghost use Rattle.matrix.specs.Matrix.{columns_of};
ghost use Rattle.levels.specs.Code.Graph.{pattern_of, adj};
ghost use Rattle.search.specs.Code.Marks.{unreached, Marked};

use crate::marking::{OUTSIDE, UNREACHED, mark};
use crate::scope::Scope;
use crate::visiting::{Change, Visits};
use levels::graph::Graph;
use matrix::limits::MAX_ROWS;

// The group's rows, put at the front of the queue: by a loop, which asks C for no `memmove`, as `copy_from_slice` does.
fn queue_rows(own: &[u32], queue: &mut [u32; MAX_ROWS])
    requires { length own.now ≤ max_rows }
    ensures { queue.new ≡ own.now ++ drop (length own.now) queue.old }
{
    for (i, v) in own.iter().enumerate() {
        queue[i] = *v;
    }
}

impl Visits {
    // The stored columns of the ring that stands in the queue from lo to hi get mark 1.
    fn mark_ring(&mut self, graph: &Graph, lo: usize, hi: usize)
        requires { (lo ≤ hi) × (hi ≤ graph.now.m.n) × ((u : ℕ) → is_in (slice lo hi self.old.queue) u ≡ true → u < graph.now.m.n) }
        ensures { Marked (concat (map (columns_of (pattern_of graph.now)) (slice lo hi self.old.queue))) self.old.marks self.new.marks }
    {
        for i in lo..hi {
            mark(graph.columns_of(self.queue[i] as usize), &mut self.marks);
        }
    }

    // The region of the group own, whose rows have mark 1 and no others: what is within reach - 1 joins of it gets mark
    // 1. The last ring needs no queue, so its rows are marked whether they are new or not. Of a group of all rows there
    // is none.
    pub(crate) fn mark_region(&mut self, scope: &Scope, own: &[u32])
        requires { ((i : ℕ) → i < length own.now → get_or own.now i 0 < scope.now.graph.m.n)
            × ((v : ℕ) → get_or self.old.marks v 0 ≡ bit (is_in own.now v)) × (length own.now ≡ unreached scope.now.graph.m.n self.old.marks) }
        ensures { (v : ℕ) → get_or self.new.marks v 0 ≡ bit (near (adj scope.now.graph) (scope.now.reach - 1) own.now v) }
    {
        if scope.reach < 2 {
            return;
        }
        let mut hi = own.len();
        let graph = &scope.graph;
        if hi == graph.m.n {
            return;
        }
        queue_rows(own, &mut self.queue);
        let found = Change {
            from: OUTSIDE,
            to: UNREACHED,
        };
        let mut lo = 0;
        for j in 2..scope.reach {
            let tail = self.next_level(graph, lo, hi, found);
            lo = hi;
            hi = tail;
        }
        self.mark_ring(graph, lo, hi);
    }
}
