// The writer of Matrix Market integer symmetric text.
#![tactic(auto)]

pub mod puts;
mod rows;

ghost use Rattle.std.specs.Prelude.{◌≡◌, length};
ghost use Rattle.base.specs.Verdicts.{reply_of};
ghost use Rattle.base.specs.Replies.{lent};
ghost use Rattle.matrix.specs.Held.{held};
ghost use Rattle.market.specs.Text.{written, write_reply};

use base::{Kind, Refusal};
use matrix::lists::Matrix;

// A matrix as text: 5, then 9. Its length is known before anything is written.
pub fn write(m: &Matrix, text: &mut [u8]) -> Result<u32, Refusal>
    ensures result_value { reply_of result ≡ write_reply (held m.now) (length text.old) }
    ensures text_after { text.new ≡ lent (write_reply (held m.now) (length text.old)) (written (held m.now)) text.old }
{
    if !symmetric::is_matrix(m) {
        return Err(Refusal {
            kind: Kind::NotMatrix,
            place: 0,
        });
    }
    let n = m.n as u32;
    let size = rows::tally_rows(m);
    let entries = size.entries;
    let bytes = size.bytes;
    let count = entries as i32;
    let needed = 51 + puts::line_width(n, n, count) + bytes;
    if text.len() < needed {
        return Err(Refusal {
            kind: Kind::TooShort,
            place: needed as u32,
        });
    }
    let first = puts::put_header(text);
    let second = puts::put_line(text, first, n, n, count);
    let end = rows::put_rows(text, second, m);
    Ok(end as u32)
}
