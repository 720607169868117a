// The calls that make or check a matrix, a plan or a product.
// Each list and its count comes by itself, as the C interface has it.
ghost use Rattle.std.specs.Prelude.{◌≡◌, ◌/◌, length};
ghost use Rattle.matrix.specs.Product.{product, product_reply};
ghost use Rattle.market.specs.Text.{written, write_reply};
ghost use Rattle.plan.specs.Sound.{check_reply};
ghost use Rattle.words.specs.LittleEndian.{unsigned, signed, signed_bytes};
ghost use Rattle.lent.specs.Bytes.{matrix_in};
ghost use Rattle.lent.specs.Word.{word, Answered};
ghost use Rattle.texts.specs.Lent.{ReadAnswered};
ghost use Rattle.office.specs.Lent.{PlanAnswered};

use lent::nets::NetBytes;
use lent::plans::PlanBytes;
use office::check::check_in;
use office::planning::{Wish, plan_in};
use office::product::product_in;
use texts::read::read_in;
use texts::write::write_in;

// The matrix of a text.
pub fn mzk_read(text: &[u8], row_starts: &mut [u8], columns: &mut [u8], values: &mut [u8]) -> u64
    ensures { ReadAnswered text.now row_starts.old columns.old values.old result row_starts.new columns.new values.new }
{
    read_in(text, row_starts, columns, values)
}

// A matrix as text.
pub fn mzk_write(n: u32, row_starts: &[u8], columns: &[u8], values: &[u8], text: &mut [u8]) -> u64
    ensures { Answered (write_reply (matrix_in n row_starts.now columns.now values.now) (length text.old)) (written (matrix_in n row_starts.now columns.now values.now)) text.old result text.new }
{
    let net = NetBytes {
        n,
        row_starts,
        columns,
        values,
    };
    write_in(&net, text)
}

// The forces of a matrix and movements.
pub fn mzk_product(
    n: u32,
    row_starts: &[u8],
    columns: &[u8],
    values: &[u8],
    movements: &[u8],
    forces: &mut [u8],
) -> u64
    ensures { Answered (product_reply (matrix_in n row_starts.now columns.now values.now) (signed 4 movements.now) (length forces.old / 8)) (signed_bytes 8 (product (matrix_in n row_starts.now columns.now values.now) (signed 4 movements.now))) forces.old result forces.new }
{
    let net = NetBytes {
        n,
        row_starts,
        columns,
        values,
    };
    product_in(&net, movements, forces)
}

// The plan of a matrix at a distance.
pub fn mzk_plan(
    n: u32,
    row_starts: &[u8],
    columns: &[u8],
    values: &[u8],
    workers: u32,
    p: u32,
    k: u32,
    order: &mut [u8],
    groups: &mut [u8],
) -> u64
    ensures { PlanAnswered (matrix_in n row_starts.now columns.now values.now) workers p k order.old groups.old result order.new groups.new }
{
    let net = NetBytes {
        n,
        row_starts,
        columns,
        values,
    };
    plan_in(&net, Wish { workers, p, k }, order, groups)
}

// Whether a plan is sound at a distance for a matrix.
pub fn mzk_check(
    n: u32,
    row_starts: &[u8],
    columns: &[u8],
    values: &[u8],
    order: &[u8],
    groups: &[u8],
    group_count: u32,
    k: u32,
) -> u64
    ensures { result ≡ word (check_reply (matrix_in n row_starts.now columns.now values.now) (unsigned 4 order.now) (unsigned 4 groups.now) group_count k) }
{
    let net = NetBytes {
        n,
        row_starts,
        columns,
        values,
    };
    let plan = PlanBytes {
        order,
        groups,
        count: group_count,
    };
    check_in(&net, &plan, k)
}
