// check: whether a plan is sound at a distance for a matrix.
ghost use Rattle.std.specs.Prelude.{◌≡◌};
ghost use Rattle.base.specs.Verdicts.{reply_of_check};
ghost use Rattle.plan.specs.Sound.{check_reply};
ghost use Rattle.words.specs.LittleEndian.{unsigned};
ghost use Rattle.lent.specs.Word.{word};
ghost use Rattle.lent.specs.Code.Nets.{net_of};

use base::Refusal;
use lent::few::{FEW_CELLS, are_few};
use lent::nets::{NetBytes, SizedNet};
use lent::plans::PlanBytes;
use lent::word::word_of;
use matrix::limits::{MAX_CELLS, MAX_ROWS, MAX_STARTS};
use plan::fields::MAX_FIELDS;

// With arrays of so many columns and values, in a frame of their own: it is short for a net with few.
#[inline(never)]
fn check_with<const CELLS: usize>(
    bytes: &SizedNet<CELLS>,
    plan: &PlanBytes,
    k: u32,
) -> Result<(), Refusal>
    ensures { reply_of_check result ≡ check_reply (net_of bytes.now.net) (unsigned 4 plan.now.order.now) (unsigned 4 plan.now.groups.now) plan.now.count k }
{
    let mut starts = [0u32; MAX_STARTS];
    let mut columns = [0u32; CELLS];
    let mut values = [0i32; CELLS];
    let m = bytes.decode(&mut starts, &mut columns, &mut values);
    let mut order = [0u32; MAX_ROWS];
    let mut groups = [0u32; MAX_FIELDS];
    sound::check(&m, &plan.decode(&mut order, &mut groups), k)
}

pub fn check_in(net: &NetBytes, plan: &PlanBytes, k: u32) -> u64
    ensures { result ≡ word (check_reply (net_of net.now) (unsigned 4 plan.now.order.now) (unsigned 4 plan.now.groups.now) plan.now.count k) }
{
    let checked = if are_few(net.columns, net.values) {
        check_with(&SizedNet::<FEW_CELLS> { net: *net }, plan, k)
    } else {
        check_with(&SizedNet::<MAX_CELLS> { net: *net }, plan, k)
    };
    word_of(checked.map(|()| 0))
}
