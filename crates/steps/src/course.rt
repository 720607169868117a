// What the steps of a run are taken by.
ghost use Rattle.std.specs.Prelude.{◌≡◌, ◌≤◌, ◌/◌, length};
ghost use Rattle.plan.specs.Sound.{max_workers};
ghost use Rattle.plan.specs.Groups.{width};
ghost use Rattle.plan.specs.Code.Checks.{record_at};
ghost use Rattle.waits.specs.Code.Waits.{Recorded};
ghost use Rattle.tables.specs.Code.Laid.{BoundedIn};
ghost use Rattle.steps.specs.Code.Steps.{RowsBy, StepsBy};

use matrix::limits::MAX_ROWS;
use plan::MAX_WORKERS;
use plan::fields::get;
use tables::{Entries, Tables};
use waits::records::Records;

// The tables of a run, of at most so many rows, and the workers of its plan.
#[derive(Clone, Copy)]
pub struct Course<'a> {
    pub tables: Tables<'a>,
    pub rows: usize,
    pub workers: usize,
    ghost few: { workers ≤ max_workers },
    ghost laid: { BoundedIn rows tables },
}

// A course in which no update of a row stands before where the row's updates begin: so it tells who is inside a row.
#[derive(Clone, Copy)]
pub struct RowCourse<'a> {
    pub course: Course<'a>,
    ghost laid: { RowsBy course.rows course.tables },
}

// A course with the entries of the matrix, and a displacement for each row.
#[derive(Clone, Copy)]
pub struct Work<'a> {
    pub course: Course<'a>,
    pub entries: Entries<'a>,
    pub displaced: &'a [i32; MAX_ROWS],
    ghost placed: { StepsBy course.rows course.tables entries },
}

// The update at hand of each worker: the position of its sum, and what it adds.
#[derive(Drop)]
pub struct Hands {
    pub targets: [usize; MAX_WORKERS],
    pub adds: [i64; MAX_WORKERS],
}

// In place of the position of a sum: no update of the worker is at hand. A number past all rows and no Option, since an
// access takes the position as it stands.
pub const NONE: usize = MAX_ROWS;

impl<'a> Course<'a> {
    // The course by laid tables of at most so many rows, with the workers of the whole.
    pub fn of(tables: &Tables<'a>, rows: usize) -> Course<'a>
        requires { ((record_at tables.now.groups.now 0).workers ≤ max_workers) × Recorded (length tables.now.groups.now / width) tables.now.groups.now
            × BoundedIn rows tables.now }
        ensures { (result.tables ≡ tables.now) × (result.rows ≡ rows) × (result.workers ≡ (record_at tables.now.groups.now 0).workers) }
    {
        Course {
            tables: *tables,
            rows,
            workers: get(tables.groups, 0).workers as usize,
        }
    }

    // The records of its groups, and where its leaves end.
    pub fn records(&self) -> Records<'a>
        requires { Recorded (length self.now.tables.groups.now / width) self.now.tables.groups.now }
        ensures { (result.groups.now ≡ self.now.tables.groups.now) × (result.ends.now ≡ self.now.tables.ends.now) }
    {
        Records {
            groups: self.tables.groups,
            ends: self.tables.ends,
        }
    }
}

impl Hands {
    ghost use Rattle.std.specs.Prelude.{replicate};
    ghost use Rattle.matrix.specs.Limits.{max_rows};

    // No worker has one.
    pub fn empty() -> Hands
        ensures { result.targets ≡ replicate max_workers max_rows }
    {
        Hands {
            targets: [NONE; MAX_WORKERS],
            adds: [0i64; MAX_WORKERS],
        }
    }

    // .. any more.
    pub fn clear(&mut self)
        ensures { (self.new.targets ≡ replicate max_workers max_rows) × (self.new.adds ≡ self.old.adds) }
    {
        self.targets = [NONE; MAX_WORKERS];
    }
}
