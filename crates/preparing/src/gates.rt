// What each group waits for of one worker, by two passes over the records: how many accesses it must have made.
ghost use Rattle.std.specs.Prelude.{◌≡◌};
ghost use Rattle.waits.specs.Code.Waits.{Recorded};
ghost use Rattle.preparing.specs.Code.Gates.{own_end, last_if, red_last, gate_if, RedEnds, Gated, Gates};

use plan::MAX_GROUPS;
use plan::fields::{Colour, get};

// The end of a leaf, if it is worker v's.
fn own_end(first: usize, v: usize, end: u32) -> u32
    ensures { result ≡ own_end first v end }
{
    if first == v { end } else { 0 }
}

// The last end of a group: its own, if it is no parent, so a leaf, else that of those below it.
fn last_if(parent: u8, below: u32, own: u32) -> u32
    ensures { result ≡ last_if parent below own }
{
    if parent == 0 { own } else { below }
}

// .. if it is red.
fn red_last(colour: u32, last: u32) -> u32
    ensures { result ≡ red_last colour last }
{
    if colour == Colour::Red as u32 {
        last
    } else {
        0
    }
}

// A group's gate: its parent's, or that of its red siblings if it is blue.
fn gate_if(above: u32, colour: u32, reds: u32) -> u32
    ensures { result ≡ gate_if above colour reds }
{
    if colour == Colour::Blue as u32 {
        above.max(reds)
    } else {
        above
    }
}

// For each group the last end of a leaf of worker v in its red children, from the last record to the first.
fn red_ends(groups: &[u32], count: usize, ends: &[u32; MAX_GROUPS], v: usize) -> [u32; MAX_GROUPS]
    requires { Recorded count groups.now }
    ensures { RedEnds count groups.now ends.now v result }
{
    let mut parents = [0u8; MAX_GROUPS];
    let mut lasts = [0u32; MAX_GROUPS];
    let mut reds = [0u32; MAX_GROUPS];
    for i in (1..count).rev() {
        let g = get(groups, i);
        let parent = g.parent as usize;
        let last = last_if(parents[i], lasts[i], own_end(g.first as usize, v, ends[i]));
        parents[parent] = 1;
        lasts[parent] = last.max(lasts[parent]);
        reds[parent] = red_last(g.colour, last).max(reds[parent]);
    }
    reds
}

// The gates by these, from the first record to the last.
fn gates_down(groups: &[u32], count: usize, reds: &[u32; MAX_GROUPS]) -> [u32; MAX_GROUPS]
    requires { Recorded count groups.now }
    ensures { Gated count groups.now reds.now result }
{
    let mut gates = [0u32; MAX_GROUPS];
    for i in 1..count {
        let g = get(groups, i);
        let parent = g.parent as usize;
        gates[i] = gate_if(gates[parent], g.colour, reds[parent]);
    }
    gates
}

// For each group how many accesses worker v must have made before its rows are worked.
pub fn worker_gates(
    groups: &[u32],
    count: usize,
    ends: &[u32; MAX_GROUPS],
    v: usize,
) -> [u32; MAX_GROUPS]
    requires { Recorded count groups.now }
    ensures { Gates count groups.now ends.now v result }
{
    let reds = red_ends(groups, count, ends, v);
    gates_down(groups, count, &reds)
}
