// Which leaves are blocked, and up to which counts this stays so: found by passes over the records.
#![tactic(auto)]

pub mod blocked;
pub mod records;

ghost use Rattle.std.specs.Prelude.{◌≡◌};
ghost use Rattle.waits.specs.Code.Waits.{open_if, open_red, blocked_if, next_end};

use blocked::Blocked;
use plan::fields::{Colour, Group, WIDTH, get};
use plan::{MAX_GROUPS, MAX_WORKERS};
use records::Records;

// Whether a group is open: a parent if one below it is, a leaf if the count is below its end.
fn open_if(is_parent: bool, below: bool, made: u32, end: u32) -> bool
    ensures { result ≡ open_if is_parent below made end }
{
    if is_parent { below } else { made < end }
}

// .. and red.
fn open_red(colour: u32, opened: bool) -> bool
    ensures { result ≡ open_red colour opened }
{
    colour == Colour::Red as u32 && opened
}

// A group is blocked if its parent is, or if it is blue and has an open red sibling.
fn blocked_if(above: bool, colour: u32, red: bool) -> bool
    ensures { result ≡ blocked_if above colour red }
{
    above || colour == Colour::Blue as u32 && red
}

// An end past the count that comes before the stop is the stop.
fn next_end(made: u32, end: u32, stop: u32) -> u32
    ensures { result ≡ next_end made end stop }
{
    if made < end && end < stop { end } else { stop }
}

impl Records<'_> {
    ghost use Rattle.std.specs.Prelude.{◌≡◌, false, replicate};
    ghost use Rattle.plan.specs.Sound.{max_groups};
    ghost use Rattle.waits.specs.Code.Recorded.{size_of, OpenBy, PassedBy, BlocksBy, AheadBy};

    // How many there are.
    fn count(&self) -> usize
        ensures { result ≡ size_of self.now }
    {
        self.groups.len() / WIDTH
    }

    // Marks the groups that have an open red child, from the last record to the first. None is marked yet.
    fn open_reds(&self, made: &[u32; MAX_WORKERS], reds: &mut [bool; MAX_GROUPS])
        requires { reds.old ≡ replicate max_groups false }
        ensures { OpenBy self.now made.now reds.new }
    {
        let mut parents = [false; MAX_GROUPS];
        let mut opens = [false; MAX_GROUPS];
        for i in (1..self.count()).rev() {
            let g = get(self.groups, i);
            let first = g.first as usize;
            let parent = g.parent as usize;
            let opened = open_if(parents[i], opens[i], made[first], self.ends[i]);
            parents[parent] = true;
            opens[parent] |= opened;
            reds[parent] |= open_red(g.colour, opened);
        }
    }

    // Marks the groups that are blocked, from the first record to the last. None is marked yet.
    fn pass_down(&self, reds: &[bool; MAX_GROUPS], blocks: &mut [bool; MAX_GROUPS])
        requires { blocks.old ≡ replicate max_groups false }
        ensures { PassedBy self.now reds.now blocks.new }
    {
        for i in 1..self.count() {
            let g = get(self.groups, i);
            let parent = g.parent as usize;
            blocks[i] = blocked_if(blocks[parent], g.colour, reds[parent]);
        }
    }

    // Marks the groups that are blocked by these counts. None is marked yet.
    pub fn find_blocked(&self, made: &[u32; MAX_WORKERS], blocks: &mut [bool; MAX_GROUPS])
        requires { blocks.old ≡ replicate max_groups false }
        ensures { BlocksBy self.now made.now blocks.new }
    {
        let mut reds = [false; MAX_GROUPS];
        self.open_reds(made, &mut reds);
        self.pass_down(&reds, blocks);
    }

    // For each worker the next end of a group of its own: up to there it finishes no leaf.
    fn next_ends(&self, made: &[u32; MAX_WORKERS]) -> [u32; MAX_WORKERS]
        ensures { AheadBy self.now made.now result }
    {
        let mut stops = [4294967295u32; MAX_WORKERS];
        for i in 0..self.count() {
            let g = get(self.groups, i);
            let first = g.first as usize;
            stops[first] = next_end(made[first], self.ends[i], stops[first]);
        }
        stops
    }
}

impl Blocked {
    ghost use Rattle.std.specs.Prelude.{◌≡◌, false, List, ℕ, ◌<◌, replicate};
    ghost use Rattle.plan.specs.Sound.{max_workers, max_groups};
    ghost use Rattle.run.specs.Machine.{onward};
    ghost use Rattle.waits.specs.Code.Recorded.{BlocksBy, AheadBy, CurrentBy};

    // No group is, and a count may reach every stop.
    pub fn none() -> Blocked
        ensures { result.blocks ≡ replicate max_groups false }
    {
        Blocked {
            blocks: [false; MAX_GROUPS],
            stops: [0u32; MAX_WORKERS],
        }
    }

    // Finds which groups are blocked by these counts, and each worker's next stop.
    pub fn find(&mut self, records: &Records, made: &[u32; MAX_WORKERS])
        ensures { BlocksBy records.now made.now self.new.blocks × AheadBy records.now made.now self.new.stops }
    {
        self.blocks = [false; MAX_GROUPS];
        records.find_blocked(made, &mut self.blocks);
        self.stops = records.next_ends(made);
    }

    // After an access of worker w: if its count has reached its stop, finds anew which groups are blocked, and each
    // worker's next stop. Whether it did.
    pub fn renew(&mut self, records: &Records, made: &[u32; MAX_WORKERS], w: usize) -> bool
        requires { w < max_workers }
        ensures { ((before : List ℕ) → made.now ≡ onward before w
            → CurrentBy records.now before self.old.blocks self.old.stops
            → CurrentBy records.now made.now self.new.blocks self.new.stops)
            × (result ≡ false → self.new.blocks ≡ self.old.blocks) }
    {
        if made[w] < self.stops[w] {
            return false;
        }
        self.find(records, made);
        true
    }
}
