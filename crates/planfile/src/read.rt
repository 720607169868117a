// A plan read from a file, into lists of bytes.
ghost use Rattle.std.specs.Prelude.{◌≡◌};
ghost use Rattle.base.specs.Verdicts.{reply_of};
ghost use Rattle.base.specs.Replies.{lent};
ghost use Rattle.plan.specs.Groups.{flat};
ghost use Rattle.words.specs.LittleEndian.{unsigned_bytes};
ghost use Rattle.planfile.specs.Calls.{read_plan_reply};
ghost use Rattle.planfile.specs.File.{number_size, plan_from};
ghost use Rattle.planfile.specs.Code.Counted.{IsReadable};

use crate::contents::{Counts, NUMBER, TABLE};
use crate::judge::counts_of;
use base::{Kind, Refusal};
use plan::fields::WIDTH;
use words::copy::copy;

// The counts of a file that there is room for in both lists.
#[tactic(auto, using(std::proofs::lemmas::Bool::Decides::nat_tests), unfolding(base::specs::Replies::in_turn, crate::specs::Calls::read_plan_reply))]
fn counts_in(file: &[u8], order: &[u8], groups: &[u8]) -> Result<Counts, Refusal>
    ensures { IsReadable file.now order.now groups.now result }
{
    let Some(counts) = counts_of(file) else {
        return Err(Refusal {
            kind: Kind::BadLayout,
            place: 0,
        });
    };
    if order.len() / NUMBER < counts.rows {
        return Err(Refusal {
            kind: Kind::TooShort,
            place: counts.rows as u32,
        });
    }
    if groups.len() / NUMBER / WIDTH < counts.groups {
        return Err(Refusal {
            kind: Kind::TooShort,
            place: counts.groups as u32,
        });
    }
    Ok(counts)
}

// Both bodies are copied as they are. README's table names this call: its two lists come one by one, as C lends them.
#[tactic(auto, unfolding(base::specs::Replies::lent))]
pub fn read(file: &[u8], order: &mut [u8], groups: &mut [u8]) -> Result<u32, Refusal>
    ensures replies { reply_of result ≡ read_plan_reply file.now order.old groups.old }
    ensures order { order.new ≡ lent (reply_of result) (unsigned_bytes number_size (plan_from file.now).order) order.old }
    ensures groups { groups.new ≡ lent (reply_of result) (unsigned_bytes number_size (flat (plan_from file.now).groups)) groups.old }
{
    let counts = counts_in(file, order, groups)?;
    let fields = WIDTH * counts.groups;
    copy(file, NUMBER * TABLE, NUMBER * counts.rows, order, 0);
    copy(
        file,
        NUMBER * (TABLE + counts.rows),
        NUMBER * fields,
        groups,
        0,
    );
    Ok((counts.rows + 65536 * counts.groups) as u32)
}
