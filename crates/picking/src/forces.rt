// The sums of a finished run, from plan order into original order.
ghost use Rattle.std.specs.Prelude.{◌≡◌, ◌*◌, ◌/◌, ◌≤◌, length};
ghost use Rattle.words.specs.LittleEndian.{signed, signed_bytes, stored};
ghost use Rattle.prepared.specs.Tables.{original_by};
ghost use Rattle.picking.specs.Code.Reads.{Head};
ghost use Rattle.picking.specs.Code.Picks.{tables_in};

use crate::head::Sizes;
use crate::places::{load_at, number_at, store_at};
use prepared::{GATE, HEAD, UPDATE};

// Each row's sum, by the row's position, over the front of the forces.
pub fn store_forces(list: &[u8], sizes: Sizes, sums: &[u8], forces: &mut [u8])
    requires { Head list.now sizes.rows sizes.crew sizes.count × (sizes.rows ≡ length sums.now / 8) × (sizes.rows * 8 ≤ length forces.old) }
    ensures { forces.new ≡ stored (signed_bytes 8 (original_by (tables_in list.now) (signed 8 sums.now))) forces.old }
{
    let rows = sizes.rows;
    let places = HEAD + sizes.count * UPDATE + rows * GATE;
    for i in 0..rows {
        let place = number_at(list, places + i * 4);
        store_at(forces, rows, i, load_at(sums, rows, place));
    }
}
