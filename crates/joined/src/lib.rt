// Two nets sewn together (document 02, Q-11).
#![tactic(auto)]

mod gather;
mod lines;
mod puts;
mod row;
mod tables;
mod tenants;

ghost use Rattle.std.specs.Prelude.{◌≡◌, length};
ghost use Rattle.base.specs.Replies.{lent};
ghost use Rattle.base.specs.Verdicts.{reply_of};
ghost use Rattle.matrix.specs.Held.{held};
ghost use Rattle.joined.specs.Joined.{joined, join_reply};

use base::{Kind, Refusal};
use compress::entries::EntryList;
use compress::rows::place_rows;
use gather::gather;
use matrix::limits::MAX_ROWS;
use matrix::lists::Matrix;
use symmetric::is_matrix;
use tenants::{count_from, put_tenants};

// The joined net's row starts, columns and values, into three lists, which are apart as C lends them: each has a room
// of its own.
pub fn join(
    first: &Matrix,
    second: &Matrix,
    places: &[u32],
    starts: &mut [u32],
    columns: &mut [u32],
    values: &mut [i32],
) -> Result<u32, Refusal>
    ensures reply { reply_of result ≡ join_reply (held first.now) (held second.now) places.now (length starts.old) (length columns.old) (length values.old) }
    ensures lent_starts { starts.new ≡ lent (join_reply (held first.now) (held second.now) places.now (length starts.old) (length columns.old) (length values.old)) (joined (held first.now) (held second.now) places.now).starts starts.old }
    ensures lent_columns { columns.new ≡ lent (join_reply (held first.now) (held second.now) places.now (length starts.old) (length columns.old) (length values.old)) (joined (held first.now) (held second.now) places.now).columns columns.old }
    ensures lent_values { values.new ≡ lent (join_reply (held first.now) (held second.now) places.now (length starts.old) (length columns.old) (length values.old)) (joined (held first.now) (held second.now) places.now).values values.old }
{
    if !is_matrix(first) {
        return Err(Refusal {
            kind: Kind::NotMatrix,
            place: 0,
        });
    }
    if !is_matrix(second) {
        return Err(Refusal {
            kind: Kind::NotMatrix,
            place: 0,
        });
    }
    if places.len() != second.n {
        return Err(Refusal {
            kind: Kind::BadPlaces,
            place: 0,
        });
    }
    let n = first.n + count_from(places, first.n);
    let mut tenants = [0u32; 2 * MAX_ROWS];
    if !put_tenants(places, n, &mut tenants) {
        return Err(Refusal {
            kind: Kind::BadPlaces,
            place: 0,
        });
    }
    if MAX_ROWS < n {
        return Err(Refusal {
            kind: Kind::PastLimits,
            place: 0,
        });
    }
    let mut list = EntryList::new();
    let Some(()) = gather(first, second, places, n, &tenants, &mut list) else {
        return Err(Refusal {
            kind: Kind::PastLimits,
            place: 0,
        });
    };
    place_rows(&list.lend(n), starts, columns, values)
}
