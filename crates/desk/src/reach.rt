// survey: how far a survey error reaches.
ghost use Rattle.std.specs.Prelude.{◌/◌, ◌≤◌, length};
ghost use Rattle.matrix.specs.Held.{held};
ghost use Rattle.words.specs.LittleEndian.{signed};
ghost use Rattle.lent.specs.Code.Nets.{net_of};
ghost use Rattle.desk.specs.Lent.{SurveyAnswered};

use lent::few::{FEW_CELLS, are_few};
use lent::lists::decode;
use lent::nets::{NetBytes, SizedNet};
use lent::word::word_of;
use matrix::limits::{MAX_CELLS, MAX_ROWS, MAX_STARTS};
use matrix::lists::Matrix;
use words::lists::store;

// What a survey asks: how far an error of at most t reaches, and a shift that reaches the row's amount.
#[derive(Clone, Copy)]
pub struct Question {
    pub t: u32,
    pub row: u32,
}

// A net and its displacements.
#[derive(Clone, Copy)]
struct Roof<'a> {
    net: Matrix<'a>,
    displacements: &'a [i32],
}

// Amounts and shift are made in sums and moves, as far as the lent lists have room; then they are stored. (No shift is,
// where the call tells that none is written.)
fn survey_of(
    roof: &Roof,
    asked: Question,
    sums: &mut [i64; MAX_ROWS],
    moves: &mut [i32; MAX_ROWS],
    amounts: &mut [u8],
    shift: &mut [u8],
) -> u64
    ensures { SurveyAnswered (held roof.now.net) roof.now.displacements.now asked.t asked.row amounts.old shift.old result amounts.new shift.new }
{
    let amounts_room = (amounts.len() / 8).min(sums.len());
    let shift_room = (shift.len() / 4).min(moves.len());
    let answer = survey::survey(
        &roof.net,
        roof.displacements,
        asked.t,
        asked.row,
        &mut sums[..amounts_room],
        &mut moves[..shift_room],
    );
    let Ok(written) = answer else {
        return word_of(answer);
    };
    let size = if written == 0 { 0 } else { roof.net.n };
    store(&sums[..roof.net.n], amounts);
    store(&moves[..size], shift);
    word_of(answer)
}

// With arrays for so many columns and values, in a frame of their own.
#[inline(never)]
fn survey_with<const CELLS: usize>(
    bytes: &SizedNet<CELLS>,
    movements: &[u8],
    asked: Question,
    amounts: &mut [u8],
    shift: &mut [u8],
) -> u64
    ensures { SurveyAnswered (net_of bytes.now.net) (signed 4 movements.now) asked.t asked.row amounts.old shift.old result amounts.new shift.new }
{
    let mut starts = [0u32; MAX_STARTS];
    let mut displacements = [0i32; MAX_STARTS];
    let mut sums = [0i64; MAX_ROWS];
    let mut moves = [0i32; MAX_ROWS];
    let mut columns = [0u32; CELLS];
    let mut values = [0i32; CELLS];
    let roof = Roof {
        net: bytes.decode(&mut starts, &mut columns, &mut values),
        displacements: decode(movements, &mut displacements),
    };
    survey_of(&roof, asked, &mut sums, &mut moves, amounts, shift)
}

pub fn survey_in(
    net: &NetBytes,
    movements: &[u8],
    asked: Question,
    amounts: &mut [u8],
    shift: &mut [u8],
) -> u64
    ensures { SurveyAnswered (net_of net.now) (signed 4 movements.now) asked.t asked.row amounts.old shift.old result amounts.new shift.new }
{
    if are_few(net.columns, net.values) {
        let bytes = SizedNet::<FEW_CELLS> { net: *net };
        survey_with(&bytes, movements, asked, amounts, shift)
    } else {
        let bytes = SizedNet::<MAX_CELLS> { net: *net };
        survey_with(&bytes, movements, asked, amounts, shift)
    }
}
