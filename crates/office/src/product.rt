// product: the forces of a matrix and movements.
ghost use Rattle.std.specs.Prelude.{◌/◌, ◌≤◌, length};
ghost use Rattle.base.specs.Verdicts.{reply_of};
ghost use Rattle.matrix.specs.Held.{held};
ghost use Rattle.matrix.specs.Limits.{max_rows};
ghost use Rattle.matrix.specs.Product.{product, product_reply};
ghost use Rattle.words.specs.LittleEndian.{signed, signed_bytes};
ghost use Rattle.lent.specs.Word.{word, Answered};
ghost use Rattle.lent.specs.Code.Nets.{net_of};

use base::Refusal;
use lent::few::{FEW_CELLS, are_few};
use lent::lists::decode;
use lent::nets::{NetBytes, SizedNet};
use lent::word::word_of;
use matrix::limits::{MAX_CELLS, MAX_ROWS, MAX_STARTS};
use matrix::lists::Matrix;
use words::lists::store;

// The product is made in sums; then it is stored.
fn product_of(
    m: &Matrix,
    displacements: &[i32],
    sums: &mut [i64; MAX_ROWS],
    forces: &mut [u8],
) -> Result<u32, Refusal>
    ensures { Answered (product_reply (held m.now) displacements.now (length forces.old / 8)) (signed_bytes 8 (product (held m.now) displacements.now)) forces.old (word (reply_of result)) forces.new }
{
    let room = (forces.len() / 8).min(sums.len());
    let count = multiply::product(m, displacements, &mut sums[..room])?;
    store(&sums[..m.n], forces);
    Ok(count)
}

// With arrays of so many columns and values, in a frame of their own: it is short for a net with few.
#[inline(never)]
fn product_with<const CELLS: usize>(
    bytes: &SizedNet<CELLS>,
    movements: &[u8],
    forces: &mut [u8],
) -> Result<u32, Refusal>
    ensures { Answered (product_reply (net_of bytes.now.net) (signed 4 movements.now) (length forces.old / 8)) (signed_bytes 8 (product (net_of bytes.now.net) (signed 4 movements.now))) forces.old (word (reply_of result)) forces.new }
{
    let mut starts = [0u32; MAX_STARTS];
    let mut columns = [0u32; CELLS];
    let mut values = [0i32; CELLS];
    let m = bytes.decode(&mut starts, &mut columns, &mut values);
    let mut displacements = [0i32; MAX_STARTS];
    let mut sums = [0i64; MAX_ROWS];
    product_of(&m, decode(movements, &mut displacements), &mut sums, forces)
}

pub fn product_in(net: &NetBytes, movements: &[u8], forces: &mut [u8]) -> u64
    ensures { Answered (product_reply (net_of net.now) (signed 4 movements.now) (length forces.old / 8)) (signed_bytes 8 (product (net_of net.now) (signed 4 movements.now))) forces.old result forces.new }
{
    if are_few(net.columns, net.values) {
        word_of(product_with(&SizedNet::<FEW_CELLS> { net: *net }, movements, forces))
    } else {
        word_of(product_with(&SizedNet::<MAX_CELLS> { net: *net }, movements, forces))
    }
}
