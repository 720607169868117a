// The reader of Matrix Market integer symmetric text.
#![tactic(auto)]

mod entries;
mod entry;
mod marks;
mod opening;
mod parse;
mod size;

ghost use Rattle.std.specs.Prelude.{◌≡◌, length};
ghost use Rattle.base.specs.Verdicts.{reply_of};
ghost use Rattle.base.specs.Replies.{lent};
ghost use Rattle.market.specs.Parse.{parse};
ghost use Rattle.market.specs.FullRows.{read_matrix, read_reply};

use base::Refusal;
use compress::entries::EntryList;
use compress::rows::place_rows;

// The matrix of a text in full rows, into three lists: 1, 2, 3 or 4 line by line, then 9. Nothing is written on a
// refusal. The lists are apart, as C lends them: each has a room of its own.
pub fn read(
    text: &[u8],
    starts: &mut [u32],
    columns: &mut [u32],
    values: &mut [i32],
) -> Result<u32, Refusal>
    ensures result_value { reply_of result ≡ read_reply (parse text.now) (length starts.old) (length columns.old) (length values.old) }
    ensures starts_after { starts.new ≡ lent (read_reply (parse text.now) (length starts.old) (length columns.old) (length values.old)) (read_matrix (parse text.now)).starts starts.old }
    ensures columns_after { columns.new ≡ lent (read_reply (parse text.now) (length starts.old) (length columns.old) (length values.old)) (read_matrix (parse text.now)).columns columns.old }
    ensures values_after { values.new ≡ lent (read_reply (parse text.now) (length starts.old) (length columns.old) (length values.old)) (read_matrix (parse text.now)).values values.old }
{
    let mut list = EntryList::new();
    let n = parse::parse_text(text, &mut list)?;
    place_rows(&list.lend(n), starts, columns, values)
}
