// What the two nets have in the columns of a row of the joined net, filled anew in each row's turn; a turn is a row's
// number plus 1.
ghost use Rattle.std.specs.Prelude.{◌≡◌, length};
ghost use Rattle.matrix.specs.Limits.{max_rows};

use crate::lines::{PlacedRow, Row};
use matrix::limits::MAX_ROWS;

// For each column the turn in which the second net's row last had it, and its value; and that in which the first net's
// row had it; and which turn it is.
#[derive(Drop)]
pub(crate) struct Tables {
    pub marks: [u32; MAX_ROWS],
    pub held: [i32; MAX_ROWS],
    pub seen: [u32; MAX_ROWS],
    pub turn: u32,
    ghost marks_long: { length marks ≡ max_rows },
    ghost held_long: { length held ≡ max_rows },
    ghost seen_long: { length seen ≡ max_rows },
}

impl Tables {
    ghost use Rattle.std.specs.Prelude.{◌<◌};
    ghost use Rattle.base.specs.Lists.{is_in, position_of};
    ghost use Rattle.matrix.specs.Matrix.{lookup};
    ghost use Rattle.joined.specs.Code.Rows.{held_at, Before, Held, Seen};

    // A turn begins with the second net's row: each value at its place.
    pub(crate) fn hold(&mut self, row: &PlacedRow, turn: u32)
        requires { Before turn self.old.marks }
        ensures held { Held turn (λ c. lookup (position_of row.now.places.now c) row.now.columns.now row.now.values.now) self.new.marks self.new.held }
        ensures seen { self.new.seen ≡ self.old.seen }
        ensures turn { self.new.turn ≡ turn }
    {
        self.turn = turn;
        for k in 0..row.columns.len() {
            let c = row.columns[k] as usize;
            let p = row.places[c] as usize;
            self.marks[p] = turn;
            self.held[p] = row.values[k];
        }
    }

    // The first net's row: its columns.
    pub(crate) fn see(&mut self, row: &Row)
        requires { Before self.old.turn self.old.seen }
        ensures seen { Seen self.old.turn (is_in row.now.columns.now) self.new.seen }
        ensures marks { self.new.marks ≡ self.old.marks }
        ensures held { self.new.held ≡ self.old.held }
        ensures turn { self.new.turn ≡ self.old.turn }
    {
        let turn = self.turn;
        for k in 0..row.columns.len() {
            let c = row.columns[k] as usize;
            self.seen[c] = turn;
        }
    }

    // What is held for column j in this turn.
    pub(crate) fn held_at(&self, j: u32) -> i32
        requires { j < max_rows }
        ensures { result ≡ held_at self.now.turn self.now.marks self.now.held j }
    {
        let c = j as usize;
        if self.marks[c] == self.turn {
            return self.held[c];
        }
        0
    }
}
