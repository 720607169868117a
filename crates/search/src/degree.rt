// How many rows are adjacent to a row.
ghost use Rattle.std.specs.Prelude.{◌≡◌, not, ◌<◌, eqb, length};
ghost use Rattle.base.specs.Lists.{filter};
ghost use Rattle.matrix.specs.Limits.{max_rows};
ghost use Rattle.levels.specs.Levels.{degree};
ghost use Rattle.levels.specs.Code.Graph.{adj};

use levels::graph::Graph;

// How many of a row's columns are not v.
fn others(row: &[u32], v: u32) -> u32
    requires { length (filter (λ j. not (eqb j v)) row.now) < max_rows }
    ensures { result ≡ length (filter (λ j. not (eqb j v)) row.now) }
{
    let mut k = 0;
    for j in row {
        if *j != v {
            k += 1;
        }
    }
    k
}

// How many rows are adjacent to row v.
pub fn degree(graph: &Graph, v: u32) -> u32
    requires { v < graph.now.m.n }
    ensures { result ≡ degree (adj graph.now) v }
{
    others(graph.columns_of(v as usize), v)
}
