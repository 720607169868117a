// set_movement: a new displacement.
ghost use Rattle.matrix.specs.Held.{held};
ghost use Rattle.lent.specs.Code.Nets.{net_of};
ghost use Rattle.upkeep.specs.Upkeep.{new_displacement};
ghost use Rattle.site.specs.Lent.{MovementAnswered};
ghost use Rattle.site.specs.Code.Decoded.{Decoded};

use lent::few::{FEW_CELLS, are_few};
use lent::nets::{NetBytes, SizedNet};
use lent::word::word_of;
use matrix::limits::{MAX_CELLS, MAX_STARTS};
use matrix::lists::Matrix;
use upkeep::set_displacement;
use words::lists::{load, store};

// A row and its new displacement.
#[derive(Clone, Copy)]
pub struct Movement {
    pub row: u32,
    pub value: i32,
}

// All lists are decoded. Displacements and forces are changed in their arrays; then they are stored.
fn set_movement_of(
    m: &Matrix,
    displacements: &mut [i32],
    sums: &mut [i64],
    to: Movement,
    movements: &mut [u8],
    forces: &mut [u8],
) -> u64
    requires { Decoded movements.old forces.old displacements.old sums.old }
    ensures { MovementAnswered (held m.now) (new_displacement to.row to.value) movements.old forces.old result movements.new forces.new }
{
    let answer = set_displacement(m, displacements, sums, to.row, to.value);
    let Ok(_) = answer else {
        return word_of(answer);
    };
    store(displacements, movements);
    store(sums, forces);
    word_of(answer)
}

// With arrays for so many columns and values, in a frame of their own.
#[inline(never)]
fn set_movement_with<const CELLS: usize>(
    bytes: &SizedNet<CELLS>,
    movements: &mut [u8],
    forces: &mut [u8],
    to: Movement,
) -> u64
    ensures { MovementAnswered (net_of bytes.now.net) (new_displacement to.row to.value) movements.old forces.old result movements.new forces.new }
{
    let mut starts = [0u32; MAX_STARTS];
    let mut displacements = [0i32; MAX_STARTS];
    let mut sums = [0i64; MAX_STARTS];
    let mut columns = [0u32; CELLS];
    let mut values = [0i32; CELLS];
    let m = bytes.decode(&mut starts, &mut columns, &mut values);
    let moved = load(movements, &mut displacements);
    let kept = load(forces, &mut sums);
    set_movement_of(
        &m,
        &mut displacements[..moved],
        &mut sums[..kept],
        to,
        movements,
        forces,
    )
}

pub fn set_movement_in(net: &NetBytes, movements: &mut [u8], forces: &mut [u8], to: Movement) -> u64
    ensures { MovementAnswered (net_of net.now) (new_displacement to.row to.value) movements.old forces.old result movements.new forces.new }
{
    if are_few(net.columns, net.values) {
        let bytes = SizedNet::<FEW_CELLS> { net: *net };
        set_movement_with(&bytes, movements, forces, to)
    } else {
        let bytes = SizedNet::<MAX_CELLS> { net: *net };
        set_movement_with(&bytes, movements, forces, to)
    }
}
