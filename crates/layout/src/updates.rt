// What the tables of updates are laid from, and what they are laid in.
use matrix::limits::MAX_ROWS;
use plan::MAX_GROUPS;
use tables::MAX_UPDATES;

// The records of a plan, all of those in the list, and how many entries the row at each position has in the upper
// triangle. That they are an accepted job's stays a clause (`PlannedBy`), and so does where its updates begin
// (`Counted`): a caller speaks of a job of its own, or of each crew's, and no field names one, so an invariant could
// only say that there is some job.
#[derive(Clone, Copy)]
pub struct SizedPlan<'a> {
    pub groups: &'a [u32],
    pub sizes: &'a [u32; MAX_ROWS],
}

// The updates of all workers, or room for them: the row of each, where those of a row begin, its leaf, and where leaves
// end.
#[derive(Drop)]
pub struct Updates {
    pub row: [u16; MAX_UPDATES],
    pub begins: [u32; MAX_ROWS],
    pub leaves: [u16; MAX_ROWS],
    pub ends: [u32; MAX_GROUPS],
}
