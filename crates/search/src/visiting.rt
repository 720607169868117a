// Visits: who has a mark gets another and joins a queue.
ghost use Rattle.std.specs.Prelude.{◌≢◌, map, ℕ, ◌<◌, ◌≤◌, length, get_or, take};
ghost use Rattle.std.proofs.Math.Seq.{slice};
ghost use Rattle.base.specs.Lists.{concat};
ghost use Rattle.levels.specs.Code.Graph.{adj};
ghost use Rattle.search.specs.Code.Search.{wave, visited, visited_all, Ready, After, Front};

use levels::graph::Graph;
use matrix::limits::MAX_ROWS;

// A mark, and the other one that takes its place.
#[derive(Clone, Copy)]
pub(crate) struct Change {
    pub from: u32,
    pub to: u32,
    ghost other: { to ≢ from },
}

// The marks of the rows, and a queue of those found.
#[derive(Drop)]
pub struct Visits {
    pub marks: [u32; MAX_ROWS],
    pub queue: [u32; MAX_ROWS],
}

impl Visits {
    // Row v is visited: if it has the mark that changes, it gets the other and joins the queue. The answer is where the
    // queue ends.
    pub(crate) fn visit(&mut self, graph: &Graph, v: usize, change: Change, tail: usize) -> usize
        requires { Ready graph.now.m.n change.from self.old.marks self.old.queue tail × (v < graph.now.m.n) }
        ensures { After graph.now.m.n change.from self.new.marks self.new.queue result
            (visited change.from change.to (wave self.old.marks (take tail self.old.queue)) v) }
    {
        if self.marks[v] != change.from {
            return tail;
        }
        self.marks[v] = change.to;
        self.queue[tail] = v as u32;
        tail + 1
    }

    // The rows are visited, one after the other. Two a turn take less time, wherever the linker puts the loop.
    fn visit_all(&mut self, graph: &Graph, rows: &[u32], change: Change, start: usize) -> usize
        requires { Ready graph.now.m.n change.from self.old.marks self.old.queue start
            × ((i : ℕ) → i < length rows.now → get_or rows.now i 0 < graph.now.m.n) }
        ensures { After graph.now.m.n change.from self.new.marks self.new.queue result
            (visited_all change.from change.to (wave self.old.marks (take start self.old.queue)) rows.now) }
    {
        let mut tail = start;
        let mut i = 0;
        while i + 1 < rows.len() {
            tail = self.visit(graph, rows[i] as usize, change, tail);
            tail = self.visit(graph, rows[i + 1] as usize, change, tail);
            i += 2;
        }
        if i < rows.len() {
            return self.visit(graph, rows[i] as usize, change, tail);
        }
        tail
    }

    // The rows adjacent to the level that stands in the queue from lo to hi are visited: those found are the next
    // level.
    pub(crate) fn next_level(
        &mut self,
        graph: &Graph,
        lo: usize,
        hi: usize,
        change: Change,
    ) -> usize
        requires { Ready graph.now.m.n change.from self.old.marks self.old.queue hi × (lo ≤ hi)
            × Front graph.now.m.n change.from self.old.marks (slice lo hi self.old.queue) }
        ensures { After graph.now.m.n change.from self.new.marks self.new.queue result
            (visited_all change.from change.to (wave self.old.marks (take hi self.old.queue))
            (concat (map (adj graph.now) (slice lo hi self.old.queue)))) }
    {
        let mut tail = hi;
        for i in lo..hi {
            let u = self.queue[i] as usize;
            tail = self.visit_all(graph, graph.columns_of(u), change, tail);
        }
        tail
    }
}
