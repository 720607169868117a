// What the size line of a text says.
ghost use Rattle.reader.specs.Code.Scanned.{Within};

// How many rows the matrix has, how many entry lines follow, and the number of the first of them.
#[derive(Clone, Copy)]
pub(crate) struct Size {
    pub rows: usize,
    pub entries: usize,
    pub line: u32,
    ghost within: { Within rows entries line },
}
