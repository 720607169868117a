// One pick for one of two crews.
ghost use Rattle.std.specs.Prelude.{◌≡◌, ℕ, ◌<◌};
ghost use Rattle.plan.specs.Sound.{max_workers};
ghost use Rattle.steps.specs.Code.Steps.{told};
ghost use Rattle.steps.specs.Code.AtHand.{AtHand, Entered};
ghost use Rattle.steps.specs.Code.Work.{update_in_work};
ghost use Rattle.turns.specs.Code.Inside.{cause_in};

use crate::inside::is_inside;
use base::Kind;
use plan::{MAX_GROUPS, MAX_WORKERS};
use steps::course::{Hands, NONE, Work};
use steps::{look_up, standstill};

// Has the next update of a worker of the plan at hand for a crew, unless its pick is refused: by its counts, or since
// the counts of the other crew say that the worker is inside a row there.
pub(crate) fn begin(
    work: &Work,
    made: &[u32; MAX_WORKERS],
    w: usize,
    other: &[u32; MAX_WORKERS],
    blocks: &[bool; MAX_GROUPS],
    hands: &mut Hands,
) -> Result<(), Kind>
    requires { (w < max_workers) × AtHand (cause_in work.now.course blocks.now other.now) (update_in_work work.now) made.now hands.old.targets hands.old.adds }
    ensures { Entered (cause_in work.now.course blocks.now other.now) (update_in_work work.now) made.now w (told result) hands.new.targets hands.new.adds }
{
    if hands.targets[w] < NONE {
        return Ok(());
    }
    standstill(&work.course, made, w, blocks)?;
    if is_inside(&work.course.tables, other, w) {
        return Err(Kind::Elsewhere);
    }
    look_up(work, made, w, hands);
    Ok(())
}
