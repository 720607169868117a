// A pair that is taken of what is left of a group.
ghost use Rattle.cycle.specs.Code.Cycle.{Fits};

use crate::{Left, Pair, Parent};
use plan::fields::{Colour, Group};

// Its numbers are small: it lies in what is left.
#[derive(Clone, Copy)]
pub(crate) struct Taken {
    pub up: Parent,
    pub left: Left,
    pub pair: Pair,
    ghost fits: { Fits up left pair },
}

impl Taken {
    ghost use Rattle.std.specs.Prelude.{◌≡◌};
    ghost use Rattle.cycle.specs.Code.Cycle.{red_group, blue_group, left_after};

    // The pair's red group.
    pub(crate) fn red(&self) -> Group
        ensures { result ≡ red_group self.now.up self.now.left self.now.pair }
    {
        Group {
            start: self.up.start + self.left.done,
            length: self.pair.reds,
            first: self.left.first,
            workers: self.pair.workers,
            colour: Colour::Red as u32,
            parent: self.up.index,
            depth: self.up.depth + 1,
        }
    }

    // .. and its blue group.
    pub(crate) fn blue(&self) -> Group
        ensures { result ≡ blue_group self.now.up self.now.left self.now.pair }
    {
        Group {
            start: self.up.start + self.left.done + self.pair.reds,
            length: self.pair.rows - self.pair.reds,
            first: self.left.first,
            workers: self.pair.workers,
            colour: Colour::Blue as u32,
            parent: self.up.index,
            depth: self.up.depth + 1,
        }
    }

    // What is left after the pair, with the next record's index.
    pub(crate) fn after(&self, index: u32) -> Left
        ensures { result ≡ left_after self.now.left self.now.pair index }
    {
        Left {
            done: self.left.done + self.pair.rows,
            first: self.left.first + self.pair.workers,
            free: self.left.free - self.pair.workers,
            index,
        }
    }
}
