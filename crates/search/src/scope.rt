// What a group's search may reach.
ghost use Rattle.std.specs.Prelude.{◌≤◌};

use levels::graph::Graph;

// A graph, and the distance that a colouring keeps: a group's region is what lies within reach - 1 joins of it.
#[derive(Clone, Copy)]
pub struct Scope<'a> {
    pub graph: Graph<'a>,
    pub reach: usize,
    ghost some: { 1 ≤ reach },
}
