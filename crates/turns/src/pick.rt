// One pick on the runs of both crews.
ghost use Rattle.std.specs.Prelude.{◌≡◌, ℕ, ◌*◌, ◌/◌, ◌%◌, ◌<◌, length, get_or};
ghost use Rattle.plan.specs.Sound.{max_workers};
ghost use Rattle.run.specs.Updates.{count};
ghost use Rattle.tables.specs.Code.Laid.{max_updates};
ghost use Rattle.waits.specs.Code.Recorded.{size_of};
ghost use Rattle.steps.specs.Code.Steps.{told};
ghost use Rattle.steps.specs.Code.AtHand.{AtHand};
ghost use Rattle.steps.specs.Code.Work.{update_in_work};
ghost use Rattle.crews.specs.Crews.{Crew, other, crew_number, own_of};
ghost use Rattle.turns.specs.Records.{states_of};
ghost use Rattle.turns.specs.Code.Inside.{cause_in};
ghost use Rattle.turns.specs.Code.Both.{work_for, Begun, AccessFor, RenewedFor};
ghost use Rattle.turns.specs.Code.Lists.{counts_in, blocks_in, stops_in, targets_in, adds_in};

use crate::Crews;
use crate::both::{BothBlocked, BothHands};
use crate::turn::begin;
use base::Kind;
use plan::MAX_WORKERS;
use steps::access;
use steps::course::{NONE, Work};
use waits::records::Records;

// Has the update of a pick at hand, unless the pick is refused. What the worker has at hand for the other crew is given
// up.
pub(crate) fn begin_for(
    who: usize,
    work0: &Work,
    work1: &Work,
    crews: &Crews,
    blocked: &BothBlocked,
    hands: &mut BothHands,
) -> Result<(), Kind>
    requires { (c : Crew) → AtHand (cause_in (work_for work0.now work1.now c).course (own_of (blocks_in blocked.now) c) (own_of (counts_in crews.now) (other c)))
        (update_in_work (work_for work0.now work1.now c)) (own_of (counts_in crews.now) c) (own_of (targets_in hands.old) c) (own_of (adds_in hands.old) c) }
    ensures { Begun (λ c. cause_in (work_for work0.now work1.now c).course (own_of (blocks_in blocked.now) c) (own_of (counts_in crews.now) (other c)))
        (λ c. update_in_work (work_for work0.now work1.now c)) (counts_in crews.now) who work0.now.course.workers (told result)
        (targets_in hands.old) (adds_in hands.old) (targets_in hands.new) (adds_in hands.new) }
{
    if 2 * MAX_WORKERS <= who {
        return Err(Kind::NoCrew);
    }
    let w = who % MAX_WORKERS;
    if work0.course.workers <= w {
        return Err(Kind::NoWorker);
    }
    let made0 = &crews.of0.made;
    let made1 = &crews.of1.made;
    if who < MAX_WORKERS {
        hands.of1.targets[w] = NONE;
        return begin(work0, made0, w, made1, &blocked.of0.blocks, &mut hands.of0);
    }
    hands.of0.targets[w] = NONE;
    begin(work1, made1, w, made0, &blocked.of1.blocks, &mut hands.of1)
}

// The access of a pick, by the update at hand.
pub(crate) fn access_for(
    crews: &mut Crews,
    sums0: &mut [i64],
    sums1: &mut [i64],
    who: usize,
    hands: &mut BothHands,
) -> Result<(), Kind>
    requires { (who < 2 * max_workers) × ((c : Crew) → who / max_workers ≡ crew_number c
        → (count (own_of (counts_in crews.old) c) (who % max_workers) < 2 * max_updates)
        × (get_or (own_of (targets_in hands.old) c) (who % max_workers) 0 < length (own_of (states_of crews.old sums0.old sums1.old) c).sums)) }
    ensures made { AccessFor who (states_of crews.old sums0.old sums1.old) (targets_in hands.old) (adds_in hands.old) (told result)
        (states_of crews.new sums0.new sums1.new) (targets_in hands.new) }
    ensures adds0 { hands.new.of0.adds ≡ hands.old.of0.adds }
    ensures adds1 { hands.new.of1.adds ≡ hands.old.of1.adds }
{
    let w = who % MAX_WORKERS;
    if who < MAX_WORKERS {
        let own = &mut crews.of0;
        return access(
            &mut own.made,
            &mut own.held,
            sums0,
            w,
            &mut hands.of0.targets,
            &hands.of0.adds,
        );
    }
    let own = &mut crews.of1;
    access(
        &mut own.made,
        &mut own.held,
        sums1,
        w,
        &mut hands.of1.targets,
        &hands.of1.adds,
    )
}

// After the access of a pick: finds anew who is blocked in its crew's run, if its worker's count has reached its stop.
pub(crate) fn renew_for(
    records: &Records,
    crews: &Crews,
    who: usize,
    blocked: &mut BothBlocked,
) -> bool
    requires { who < 2 * max_workers }
    ensures { RenewedFor (size_of records.now) records.now.groups.now records.now.ends.now (counts_in crews.now) who result
        (blocks_in blocked.old) (stops_in blocked.old) (blocks_in blocked.new) (stops_in blocked.new) }
{
    let w = who % MAX_WORKERS;
    if who < MAX_WORKERS {
        return blocked.of0.renew(records, &crews.of0.made, w);
    }
    blocked.of1.renew(records, &crews.of1.made, w)
}
