// Rows of the two nets, as they are handed on.
ghost use Rattle.joined.specs.Code.Rows.{FirstRow, SecondRow};

// A row of a net: its columns, and their values beside them.
#[derive(Clone, Copy)]
pub(crate) struct Row<'a> {
    pub columns: &'a [u32],
    pub values: &'a [i32],
    ghost shape: { FirstRow columns.now values.now },
}

// A row of the second net, with the places of its columns in the joined net.
#[derive(Clone, Copy)]
pub(crate) struct PlacedRow<'a> {
    pub columns: &'a [u32],
    pub values: &'a [i32],
    pub places: &'a [u32],
    ghost shape: { SecondRow places.now columns.now values.now },
}
