// The layout: the table of contents, and the length of a file.
ghost use Rattle.std.specs.Prelude.{◌≡◌, ◌≤◌, ◌<◌, ◌^◌};
ghost use Rattle.matrix.specs.Limits.{max_rows};
ghost use Rattle.plan.specs.Sound.{max_groups};
ghost use Rattle.planfile.specs.File.{contents, file_size};

use matrix::limits::MAX_ROWS;
use plan::MAX_GROUPS;
use plan::fields::WIDTH;

// The bytes of a number, and the numbers of the table.
pub(crate) const NUMBER: usize = 4;

pub(crate) const TABLE: usize = 7;

// "its kind (1 order, ..)"; the groups, with their depth, are of "kind 3 in place of 2"
const ORDER: u32 = 1;

const GROUPS: u32 = 3;

// How many freedoms and groups a file has: it can carry as many.
#[derive(Clone, Copy)]
pub(crate) struct Counts {
    pub rows: usize,
    pub groups: usize,
    pub ghost bounds: { (1 ≤ rows) × (rows ≤ max_rows) × (1 ≤ groups) × (groups ≤ max_groups) },
}

impl Counts {
    ghost use Rattle.planfile.specs.Code.Counted.{IsCounted};

    // None where a file can't carry as many.
    #[tactic(auto, using(std::proofs::lemmas::Bool::Decides::nat_tests), unfolding(crate::specs::File::is_sized))]
    pub(crate) fn of(rows: usize, groups: usize) -> Option<Counts>
        ensures { IsCounted rows groups result }
    {
        if 1 <= rows && rows <= MAX_ROWS && 1 <= groups && groups <= MAX_GROUPS {
            return Some(Counts { rows, groups });
        }
        None
    }

    // The bytes of a file.
    #[tactic(auto, unfolding(crate::specs::File::file_size))]
    pub(crate) fn file_size(self) -> usize
        ensures { (result ≡ file_size self.rows self.groups) × (result < 2 ^ 32) }
    {
        NUMBER * (TABLE + self.rows + WIDTH * self.groups)
    }

    // The numbers of the table.
    #[tactic(auto, unfolding(crate::specs::File::contents))]
    pub(crate) fn table(self) -> [u32; TABLE]
        ensures { result ≡ contents self.rows self.groups }
    {
        [
            2,
            ORDER,
            (NUMBER * TABLE) as u32,
            (NUMBER * self.rows) as u32,
            GROUPS,
            (NUMBER * (TABLE + self.rows)) as u32,
            (NUMBER * (WIDTH * self.groups)) as u32,
        ]
    }
}
