// A plan, in lists of bytes, written as a file.
ghost use Rattle.std.specs.Prelude.{◌≡◌, length};
ghost use Rattle.base.specs.Verdicts.{reply_of};
ghost use Rattle.base.specs.Replies.{lent};
ghost use Rattle.words.specs.LittleEndian.{stored};
ghost use Rattle.planfile.specs.Calls.{lent_plan, write_plan_reply};
ghost use Rattle.planfile.specs.File.{file_of};
ghost use Rattle.planfile.specs.Code.Counted.{IsWritable};
ghost use Rattle.planfile.specs.Code.Room.{Writable};

use crate::contents::{Counts, NUMBER, TABLE};
use base::{Kind, Refusal};
use plan::fields::WIDTH;
use words::copy::copy;
use words::lists::store;

// The counts of a plan that there is room for. It takes what `write` is lent: a struct for two functions is no plainer.
#[tactic(auto, using(std::proofs::lemmas::Bool::Decides::nat_tests), unfolding(base::specs::Replies::in_turn, crate::specs::Calls::write_plan_reply))]
fn counts_in(
    n: u32,
    order: &[u8],
    groups: &[u8],
    group_count: u32,
    room: usize,
) -> Result<Counts, Refusal>
    ensures { IsWritable n order.now groups.now group_count room result }
{
    let Some(counts) = Counts::of(n as usize, group_count as usize) else {
        return Err(Refusal {
            kind: Kind::BadLayout,
            place: 0,
        });
    };
    if order.len() / NUMBER < counts.rows || groups.len() / NUMBER < WIDTH * counts.groups {
        return Err(Refusal {
            kind: Kind::Unsound,
            place: 0,
        });
    }
    let size = counts.file_size();
    if room < size {
        return Err(Refusal {
            kind: Kind::TooShort,
            place: size as u32,
        });
    }
    Ok(counts)
}

// The table, then both bodies, copied as they are.
fn fill(order: &[u8], groups: &[u8], counts: Counts, file: &mut [u8])
    requires { Writable counts.rows order.now groups.now counts.groups (length file.old) }
    ensures { file.new ≡ stored (file_of (lent_plan counts.rows order.now groups.now counts.groups)) file.old }
{
    store(&counts.table(), file);
    copy(order, 0, NUMBER * counts.rows, file, NUMBER * TABLE);
    copy(
        groups,
        0,
        NUMBER * (WIDTH * counts.groups),
        file,
        NUMBER * (TABLE + counts.rows),
    );
}

// The file of a plan of n rows. README's table names this call: its lists come one by one, as C lends them.
#[tactic(auto, unfolding(base::specs::Replies::lent))]
pub fn write(
    n: u32,
    order: &[u8],
    groups: &[u8],
    group_count: u32,
    file: &mut [u8],
) -> Result<u32, Refusal>
    ensures replies { reply_of result ≡ write_plan_reply n order.now groups.now group_count (length file.old) }
    ensures file { file.new ≡ lent (reply_of result) (file_of (lent_plan n order.now groups.now group_count)) file.old }
{
    let counts = counts_in(n, order, groups, group_count, file.len())?;
    fill(order, groups, counts, file);
    Ok(counts.file_size() as u32)
}
