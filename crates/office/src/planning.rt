// plan: the plan of a matrix.
ghost use Rattle.base.specs.Verdicts.{reply_of};
ghost use Rattle.matrix.specs.Held.{held};
ghost use Rattle.lent.specs.Word.{word};
ghost use Rattle.lent.specs.Code.Nets.{net_of};
ghost use Rattle.office.specs.Lent.{PlanAnswered};

use base::Refusal;
use lent::few::{FEW_CELLS, are_few};
use lent::nets::{NetBytes, SizedNet};
use lent::word::word_of;
use matrix::limits::{MAX_CELLS, MAX_ROWS, MAX_STARTS};
use matrix::lists::Matrix;
use plan::fields::{MAX_FIELDS, WIDTH};
use words::lists::store;

// What a plan is made for: how many workers, a share and a distance.
#[derive(Clone, Copy)]
pub struct Wish {
    pub workers: u32,
    pub p: u32,
    pub k: u32,
}

// The plan is made in arrays, as far as the lent lists have room; then it is stored. (The order and the groups stay two
// lists, here and below: C lends both to be written, and in a struct they would be no plainer, since each clause would
// still say of both what they were and what they are.)
fn plan_of(
    m: &Matrix,
    wish: Wish,
    order: &mut [u32; MAX_ROWS],
    groups: &mut [u32; MAX_FIELDS],
    order_bytes: &mut [u8],
    group_bytes: &mut [u8],
) -> Result<u32, Refusal>
    ensures { PlanAnswered (held m.now) wish.workers wish.p wish.k order_bytes.old group_bytes.old (word (reply_of result)) order_bytes.new group_bytes.new }
{
    let order_room = (order_bytes.len() / 4).min(order.len());
    let groups_room = (group_bytes.len() / 4).min(groups.len());
    let lent_order = &mut order[..order_room];
    let lent_groups = &mut groups[..groups_room];
    let count = planner::plan(m, wish.workers, wish.p, wish.k, lent_order, lent_groups)?;
    store(&order[..m.n], order_bytes);
    store(&groups[..WIDTH * count as usize], group_bytes);
    Ok(count)
}

// With arrays of so many columns and values, in a frame of their own: it is short for a net with few.
#[inline(never)]
fn plan_with<const CELLS: usize>(
    bytes: &SizedNet<CELLS>,
    wish: Wish,
    order: &mut [u8],
    groups: &mut [u8],
) -> Result<u32, Refusal>
    ensures { PlanAnswered (net_of bytes.now.net) wish.workers wish.p wish.k order.old groups.old (word (reply_of result)) order.new groups.new }
{
    let mut starts = [0u32; MAX_STARTS];
    let mut columns = [0u32; CELLS];
    let mut values = [0i32; CELLS];
    let m = bytes.decode(&mut starts, &mut columns, &mut values);
    let mut order_list = [0u32; MAX_ROWS];
    let mut group_list = [0u32; MAX_FIELDS];
    plan_of(&m, wish, &mut order_list, &mut group_list, order, groups)
}

pub fn plan_in(net: &NetBytes, wish: Wish, order: &mut [u8], groups: &mut [u8]) -> u64
    ensures { PlanAnswered (net_of net.now) wish.workers wish.p wish.k order.old groups.old result order.new groups.new }
{
    if are_few(net.columns, net.values) {
        word_of(plan_with(&SizedNet::<FEW_CELLS> { net: *net }, wish, order, groups))
    } else {
        word_of(plan_with(&SizedNet::<MAX_CELLS> { net: *net }, wish, order, groups))
    }
}
