// Prepared jobs: what a list of tables holds that picks look everything up in, and that it stands for its job. The code
// is in preparing and picking; here are the places and sizes in such a list, in bytes.
#![tactic(auto)]

// "MZKP", low byte first.
pub const MARK: u32 = 1347115597;

// Where the accesses of each worker stand, the first update of each, and the updates.
pub const MOST: usize = 16;

pub const FIRST: usize = 80;

pub const HEAD: usize = 144;

// The bytes of an update, of a row's gate, and of this with the row's position.
pub const UPDATE: usize = 16;

pub const GATE: usize = 64;

pub const ROW: usize = 68;
