// A plan's groups are records in a flat list: what a record is, and how it is read and written.
ghost use Rattle.std.specs.Prelude.{◌≡◌, ◌++◌, ◌+◌, ◌*◌, ◌≤◌, length, take};
ghost use Rattle.plan.specs.Groups.{width, fields_of, group_of};
ghost use Rattle.plan.specs.Code.Checks.{colour_of, record_at};

use crate::MAX_GROUPS;

// How many numbers a record has, and a list of all that a plan may have.
pub const WIDTH: usize = 7;

pub const MAX_FIELDS: usize = MAX_GROUPS * WIDTH;

// What a record's colour says; a lent record may have any other number.
#[derive(Clone, Copy, PartialEq, Eq)]
pub enum Colour {
    Whole = 0,
    Red = 1,
    Blue = 2,
}

impl Colour {
    // Its number in a record.
    pub fn number(self) -> u32
        ensures { result ≡ colour_of self }
    {
        self as u32
    }
}

// A group's record.
#[derive(Clone, Copy)]
pub struct Group {
    pub start: u32,
    pub length: u32,
    pub first: u32,
    pub workers: u32,
    pub colour: u32,
    pub parent: u32,
    pub depth: u32,
}

// Reads the record at an index.
pub fn get(numbers: &[u32], i: usize) -> Group
    requires { width * (i + 1) ≤ length numbers.now }
    ensures { group_of result ≡ record_at numbers.now i }
{
    let at = WIDTH * i;
    Group {
        start: numbers[at],
        length: numbers[at + 1],
        first: numbers[at + 2],
        workers: numbers[at + 3],
        colour: numbers[at + 4],
        parent: numbers[at + 5],
        depth: numbers[at + 6],
    }
}

// Writes a record at an index.
pub fn put(numbers: &mut [u32], i: usize, g: Group)
    requires { width * (i + 1) ≤ length numbers.old }
    ensures { take (width * (i + 1)) numbers.new ≡ take (width * i) numbers.old ++ fields_of (group_of g) }
{
    let fields = [
        g.start, g.length, g.first, g.workers, g.colour, g.parent, g.depth,
    ];
    let at = WIDTH * i;
    numbers[at..at + WIDTH].copy_from_slice(&fields);
}
