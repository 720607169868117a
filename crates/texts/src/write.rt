// write: a matrix as text.
ghost use Rattle.std.specs.Prelude.{length};
ghost use Rattle.market.specs.Text.{written, write_reply};
ghost use Rattle.lent.specs.Code.Nets.{net_of};
ghost use Rattle.lent.specs.Word.{Answered};

use lent::nets::{NetBytes, SizedNet};
use lent::word::word_of;
use matrix::limits::{MAX_CELLS, MAX_STARTS};
use writer::write;

pub fn write_in(net: &NetBytes, text: &mut [u8]) -> u64
    ensures { Answered (write_reply (net_of net.now) (length text.old)) (written (net_of net.now)) text.old result text.new }
{
    let mut starts = [0u32; MAX_STARTS];
    let mut columns = [0u32; MAX_CELLS];
    let mut values = [0i32; MAX_CELLS];
    let bytes = SizedNet::<MAX_CELLS> { net: *net };
    word_of(write(&bytes.decode(&mut starts, &mut columns, &mut values), text))
}
