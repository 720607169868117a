// A schedule by a prepared list, and who is ready.
ghost use Rattle.std.specs.Prelude.{◌≡◌, ◌/◌, length};
ghost use Rattle.run.specs.Machine.{bits};
ghost use Rattle.words.specs.LittleEndian.{signed};
ghost use Rattle.machine.specs.Record.{state_of};
ghost use Rattle.machine.specs.Code.Stepped.{passes_over, walked_of};
ghost use Rattle.prepared.specs.Tables.{pass_by, ready_below_by};
ghost use Rattle.picking.specs.Code.Reads.{Head};
ghost use Rattle.picking.specs.Code.Picks.{tables_in, SumsKept};

use crate::head::Sizes;
use crate::pick::{pick, refusal};
use machine::state::{Rule, State, Walked};
use plan::MAX_WORKERS;

// No row: it has no gate.
const NOWHERE: usize = 4294967295;

// Takes the picks of a schedule one by one, up to the first that is refused and that the rule does not pass over: a
// value, as its clause has it, `passes_over rule`. There is a sum for each row.
pub fn walk(
    list: &[u8],
    sizes: Sizes,
    state: State,
    sums: &mut [u8],
    schedule: &[u8],
    rule: Rule,
) -> Walked
    requires { Head list.now sizes.rows sizes.crew sizes.count × (sizes.rows ≡ length sums.old / 8) }
    ensures { (walked_of result (signed 8 sums.new) ≡ pass_by (tables_in list.now) (passes_over rule) (state_of state (signed 8 sums.old)) schedule.now)
        × SumsKept sizes.rows sums.old sums.new }
{
    let mut now = state;
    let mut seen = [NOWHERE; MAX_WORKERS];
    let mut taken = 0;
    for (k, w) in schedule.iter().enumerate() {
        match pick(list, sizes, &mut now, &mut seen, sums, *w as usize) {
            Ok(()) => taken += 1,
            Err(kind) => {
                if !rule.passes(kind) {
                    return Walked {
                        state: now,
                        taken,
                        past: k,
                        stop: Some(kind),
                    };
                }
            }
        }
    }
    Walked {
        state: now,
        taken,
        past: schedule.len(),
        stop: None,
    }
}

// Sixteen bits, bit w for worker w, of those whose step would be taken.
pub fn ready_bits(list: &[u8], sizes: Sizes, made: &[u32; MAX_WORKERS]) -> u16
    requires { Head list.now sizes.rows sizes.crew sizes.count }
    ensures { result ≡ bits (ready_below_by (tables_in list.now) made.now sizes.crew) }
{
    let seen = [NOWHERE; MAX_WORKERS];
    let mut set: u16 = 0;
    for w in 0..sizes.crew {
        let is_ready = refusal(list, sizes, made, &seen, w).is_ok();
        set |= (is_ready as u16) << w;
    }
    set
}
