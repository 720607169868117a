// The checks of a call for both.
ghost use Rattle.std.specs.Prelude.{◌≡◌, ◌&&◌};
ghost use Rattle.base.specs.Replies.{accepted, refused, in_turn};
ghost use Rattle.base.specs.Verdicts.{reply_of_check};
ghost use Rattle.matrix.specs.Held.{held};
ghost use Rattle.plan.specs.Sound.{max_workers};
ghost use Rattle.tables.specs.Code.Laid.{Rising};
ghost use Rattle.machine.specs.Code.Tests.{all_below, fine};
ghost use Rattle.crews.specs.Calls.{roof_checks};
ghost use Rattle.shared.specs.Code.Held.{both_moves};

use crate::Roof;
use base::{Kind, Refusal};
use multiply::check_displacements;
use sound::is_plan;
use symmetric::is_matrix;
use tables::FIRSTS;
use turns::Crews;

// 5; 6 of crew 0, of crew 1; 8: whether the lists hold a matrix, its displacements for each crew, and a plan that is
// sound for it.
pub(crate) fn check_roof(roof: &Roof) -> Result<(), Refusal>
    ensures { reply_of_check result ≡ in_turn refused (roof_checks (held roof.now.matrix) (both_moves roof.now)
        roof.now.plan.order.now roof.now.plan.groups.now roof.now.plan.count) (accepted 0) }
{
    if !is_matrix(&roof.matrix) {
        return Err(Refusal {
            kind: Kind::NotMatrix,
            place: 0,
        });
    }
    let rows = roof.matrix.n as u32;
    check_displacements(rows, roof.displacements0)?;
    check_displacements(rows, roof.displacements1)?;
    if !is_plan(&roof.matrix, &roof.plan) {
        return Err(Refusal {
            kind: Kind::Unsound,
            place: 0,
        });
    }
    Ok(())
}

// No worker has made more than its accesses, for either crew.
pub(crate) fn are_fine(crews: Crews, first: [u32; FIRSTS]) -> bool
    requires { Rising first }
    ensures { result ≡ all_below (fine first crews.of0.made) max_workers && all_below (fine first crews.of1.made) max_workers }
{
    let zero = crews.of0;
    let one = crews.of1;
    zero.is_fine(first) && one.is_fine(first)
}
