// Whether bytes are a file: it has the table, and the length, of a plan of the counts in its table.
ghost use Rattle.std.specs.Prelude.{◌≡◌, ◌≤◌, ◌<◌, ◌/◌, length, get_or};
ghost use Rattle.base.specs.Lists.{begins};
ghost use Rattle.words.specs.LittleEndian.{unsigned};
ghost use Rattle.planfile.specs.File.{number_size};
ghost use Rattle.planfile.specs.Code.Counted.{IsJudged};

use crate::contents::{Counts, NUMBER, TABLE};
use plan::fields::WIDTH;
use words::word::Word;

// A number of the file.
fn number_at(file: &[u8], k: usize) -> u32
    requires { k < length file.now / number_size }
    ensures { result ≡ get_or (unsigned number_size file.now) k 0 }
{
    u32::read(file, k * NUMBER)
}

// Whether the file's numbers begin with those of a table.
fn has_table(file: &[u8], table: &[u32]) -> bool
    requires { length table.now ≤ length file.now / number_size }
    ensures { result ≡ begins (unsigned number_size file.now) table.now }
{
    for k in 0..table.len() {
        if number_at(file, k) != table[k] {
            return false;
        }
    }
    true
}

// The counts in the table of a file.
pub(crate) fn counts_of(file: &[u8]) -> Option<Counts>
    ensures { IsJudged file.now result }
{
    if file.len() < NUMBER * TABLE {
        return None;
    }
    let rows = number_at(file, 3) as usize / NUMBER;
    let groups = number_at(file, 6) as usize / (NUMBER * WIDTH);
    let counts = Counts::of(rows, groups)?;
    if file.len() != counts.file_size() {
        return None;
    }
    if !has_table(file, &counts.table()) {
        return None;
    }
    Some(counts)
}
