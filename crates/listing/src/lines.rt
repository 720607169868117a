// The lines that netplan writes, put into a lent output.

ghost use Rattle.std.specs.Prelude.{[], ◌∷◌, ◌++◌, ◌+◌, ◌*◌, ◌^◌, ◌≤◌, ◌<◌, length};
ghost use Rattle.base.specs.Verdicts.{number_of};
ghost use Rattle.market.specs.Bytes.{line_feed};
ghost use Rattle.writer.specs.Code.Puts.{Put};
ghost use Rattle.plan.specs.Groups.{width, records};
ghost use Rattle.plan.specs.Code.Held.{held};
ghost use Rattle.listing.specs.Listing.{spaced, refused_line, order_line, title_line, group_lines, plan_listing};
ghost use Rattle.listing.specs.Code.Room.{max_number, max_refusal, max_line, titles};

use base::Refusal;
use plan::fields::WIDTH;
use plan::lists::Plan;
use writer::puts::{put_byte, put_number};

// Bytes, and the place after them.
fn put_bytes(output: &mut [u8], at: usize, bytes: &[u8]) -> usize
    requires { at + length bytes.now ≤ length output.old }
    ensures { Put bytes.now at result output.old output.new }
{
    let next = at + bytes.len();
    output[at..next].copy_from_slice(bytes);
    next
}

// Numbers, each after a space, and the line feed; and the place after them.
fn put_fields(output: &mut [u8], at: usize, numbers: &[u32]) -> usize
    requires { at + length (spaced numbers.now ++ line_feed ∷ []) ≤ length output.old }
    ensures { Put (spaced numbers.now ++ line_feed ∷ []) at result output.old output.new }
{
    let mut p = at;
    for v in numbers {
        let gap = put_byte(output, p, b' ');
        p = put_number(output, gap, *v);
    }
    put_byte(output, p, b'\n')
}

// The line of a refusal, and the place after it.
pub(crate) fn put_refusal(output: &mut [u8], refusal: Refusal) -> usize
    requires { max_refusal ≤ length output.old }
    ensures { Put (refused_line (number_of refusal.kind) refusal.place) 0 result output.old output.new }
{
    let word = put_bytes(output, 0, b"refused");
    put_fields(output, word, &[refusal.kind.number(), refusal.place])
}

// The order's line and the title line, and the place after them.
fn put_order(output: &mut [u8], order: &[u32]) -> usize
    requires { titles + max_number * length order.now ≤ length output.old }
    ensures { Put (order_line order.now ++ title_line) 0 result output.old output.new }
{
    let word = put_bytes(output, 0, b"order");
    let title = put_fields(output, word, order);
    put_bytes(
        output,
        title,
        b"group start length first workers colour parent depth\n",
    )
}

// The lines of a plan's records, and the place after them.
fn put_groups(output: &mut [u8], at: usize, plan: &Plan) -> usize
    requires { (plan.now.count < 2 ^ 32) × (width * plan.now.count ≤ length plan.now.groups.now) × (at + max_line * plan.now.count ≤ length output.old) }
    ensures { Put (group_lines 0 (records plan.now.count plan.now.groups.now)) at result output.old output.new }
{
    let mut p = at;
    for i in 0..plan.count {
        let index = put_number(output, p, i as u32);
        let from = WIDTH * i;
        p = put_fields(output, index, &plan.groups[from..from + WIDTH]);
    }
    p
}

// The plan of n rows, and the place after it.
pub(crate) fn put_plan(output: &mut [u8], n: usize, plan: &Plan) -> usize
    requires { (n ≤ length plan.now.order.now) × (plan.now.count < 2 ^ 32) × (width * plan.now.count ≤ length plan.now.groups.now)
        × (titles + max_number * n + max_line * plan.now.count ≤ length output.old) }
    ensures { Put (plan_listing (held n plan.now)) 0 result output.old output.new }
{
    let rows = put_order(output, &plan.order[..n]);
    put_groups(output, rows, plan)
}
