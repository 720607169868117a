// The calls for two crews, by the lists that a caller lends: the checks, then what is asked (document 02, Q-9).
#![tactic(auto)]

mod checks;
mod ready_sets;

ghost use Rattle.std.specs.Prelude.{◌≡◌, List, ℤ, length};
ghost use Rattle.matrix.specs.Held.{held};
ghost use Rattle.crews.specs.Calls.{answer_both, answer_both_lent};
ghost use Rattle.crews.specs.Calls as asked;
ghost use Rattle.turns.specs.Records.{states_of};
ghost use Rattle.shared.specs.Performed.{PicksMade, as_sets};
ghost use Rattle.shared.specs.Code.Held.{roof_in, GivenFor};
ghost use Rattle.shared.specs.Code.Made.{Made};

use base::{Kind, Refusal};
use calls::{Response, stop_of};
use checks::{are_fine, check_roof};
use layout::counts::first_updates;
use layout::updates::SizedPlan;
use matrix::limits::MAX_ROWS;
use matrix::lists::Matrix;
use plan::fields::WIDTH;
use plan::lists::Plan;
use ready_sets::ready_sets;
use tables::{Entries, MAX_UPDATES};
use turns::{CREWS, Crews};
use upper::order::displace;
use upper::sizes::sizes_of;
use upper::triangle::{OrderedMatrix, Triangle};
use upper::upper;

// What both crews work under, by its lists: a matrix, the displacement of each row for each crew, and a plan.
#[derive(Clone, Copy)]
pub struct Roof<'a> {
    pub matrix: Matrix<'a>,
    pub displacements0: &'a [i32],
    pub displacements1: &'a [i32],
    pub plan: Plan<'a>,
}

// The ready sets of both: a bit for each worker, and their count, of crew 0 and of crew 1.
#[derive(Clone, Copy)]
pub struct Sets {
    pub bits0: u16,
    pub count0: u32,
    pub bits1: u16,
    pub count1: u32,
}

// Lays the upper triangle, which gives the sizes too, and takes the picks. There is a sum for each row, for each crew.
fn take_picks(
    roof: &Roof,
    crews: &mut Crews,
    sums0: &mut [i64],
    sums1: &mut [i64],
    schedule: &[u8],
) -> Result<Response, Refusal>
    requires { GivenFor roof.now × (length sums0.old ≡ roof.now.matrix.n) × (length sums1.old ≡ roof.now.matrix.n) }
    ensures { Made (roof_in roof.now) (states_of crews.old sums0.old sums1.old) schedule.now result (states_of crews.new sums0.new sums1.new) }
{
    let order = roof.plan.order;
    let ordered = OrderedMatrix {
        m: roof.matrix,
        order,
    };
    let mut triangle = Triangle {
        parts: [0u32; MAX_ROWS],
        at: [0u16; MAX_UPDATES],
        beside: [0i32; MAX_UPDATES],
    };
    let mut sizes = [0u32; MAX_ROWS];
    upper(&ordered, &mut sizes, &mut triangle);
    let plan = SizedPlan {
        groups: roof.plan.groups,
        sizes: &sizes,
    };
    let first = first_updates(plan.groups, plan.groups.len() / WIDTH, plan.sizes);
    if !are_fine(*crews, first) {
        return Err(Refusal {
            kind: Kind::NotState,
            place: 0,
        });
    }
    let mut displaced = [[0i32; MAX_ROWS]; CREWS];
    displace(roof.displacements0, order, &mut displaced[0]);
    displace(roof.displacements1, order, &mut displaced[1]);
    let entries = Entries {
        parts: &triangle.parts,
        at: &triangle.at,
        beside: &triangle.beside,
    };
    let turned = crews.take(sums0, sums1, schedule, &plan, first, &entries, &displaced);
    *crews = turned.crews;
    let stop = stop_of(turned.stop, turned.taken);
    Ok(Response::Picked(turned.taken, stop))
}

// One call of picks for both.
pub fn picks_both(
    roof: &Roof,
    crews: &mut Crews,
    sums0: &mut [i64],
    sums1: &mut [i64],
    schedule: &[u8],
) -> Result<Response, Refusal>
    ensures { PicksMade (held roof.now.matrix) (record { of0 = roof.now.displacements0.now; of1 = roof.now.displacements1.now })
        roof.now.plan.order.now roof.now.plan.groups.now roof.now.plan.count
        (states_of crews.old sums0.old sums1.old) schedule.now result (states_of crews.new sums0.new sums1.new) }
{
    check_roof(roof)?;
    if sums0.len() != roof.matrix.n {
        return Err(Refusal {
            kind: Kind::NotState,
            place: 0,
        });
    }
    if sums1.len() != roof.matrix.n {
        return Err(Refusal {
            kind: Kind::NotState,
            place: 0,
        });
    }
    let records = &roof.plan.groups[..WIDTH * roof.plan.count];
    let cut = Roof {
        matrix: roof.matrix,
        displacements0: roof.displacements0,
        displacements1: roof.displacements1,
        plan: Plan {
            order: roof.plan.order,
            groups: records,
            count: roof.plan.count,
        },
    };
    take_picks(&cut, crews, sums0, sums1, schedule)
}

// The ready sets of both, by the tables of the roof, if the counts are those of states. There is a sum for each row.
fn look(roof: &Roof, crews: Crews) -> Result<Sets, Refusal>
    requires { GivenFor roof.now }
    ensures { (sums0 sums1 : List ℤ) → length sums0 ≡ roof.now.matrix.n → length sums1 ≡ roof.now.matrix.n
        → as_sets result ≡ answer_both (roof_in roof.now) (states_of crews sums0 sums1) asked.ready_sets }
{
    let ordered = OrderedMatrix {
        m: roof.matrix,
        order: roof.plan.order,
    };
    let mut position = [0u32; MAX_ROWS];
    let mut sizes = [0u32; MAX_ROWS];
    sizes_of(&ordered, &mut position, &mut sizes);
    let plan = SizedPlan {
        groups: roof.plan.groups,
        sizes: &sizes,
    };
    let first = first_updates(plan.groups, plan.groups.len() / WIDTH, plan.sizes);
    if !are_fine(crews, first) {
        return Err(Refusal {
            kind: Kind::NotState,
            place: 0,
        });
    }
    Ok(ready_sets(crews, &plan, first))
}

// One call for the ready sets of both. It takes no displacement, but judges them.
pub fn ready_both(roof: &Roof, crews: Crews, sums0: &[i64], sums1: &[i64]) -> Result<Sets, Refusal>
    ensures { as_sets result ≡ answer_both_lent (held roof.now.matrix) (record { of0 = roof.now.displacements0.now; of1 = roof.now.displacements1.now })
        roof.now.plan.order.now roof.now.plan.groups.now roof.now.plan.count
        (states_of crews sums0.now sums1.now) asked.ready_sets }
{
    check_roof(roof)?;
    if sums0.len() != roof.matrix.n {
        return Err(Refusal {
            kind: Kind::NotState,
            place: 0,
        });
    }
    if sums1.len() != roof.matrix.n {
        return Err(Refusal {
            kind: Kind::NotState,
            place: 0,
        });
    }
    let records = &roof.plan.groups[..WIDTH * roof.plan.count];
    let cut = Roof {
        matrix: roof.matrix,
        displacements0: roof.displacements0,
        displacements1: roof.displacements1,
        plan: Plan {
            order: roof.plan.order,
            groups: records,
            count: roof.plan.count,
        },
    };
    look(&cut, crews)
}
