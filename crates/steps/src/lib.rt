// Steps: one load or store each.
#![tactic(auto)]

pub mod course;
pub mod updates;

ghost use Rattle.std.specs.Prelude.{◌≡◌, List, ℕ, ◌*◌, ◌≤◌, ◌<◌, length, get_or, set};
ghost use Rattle.plan.specs.Sound.{max_workers};
ghost use Rattle.run.specs.Updates.{count};
ghost use Rattle.tables.specs.Code.Laid.{max_updates, updates_in, Rising};
ghost use Rattle.steps.specs.Code.Steps.{state_with, told, place_next};
ghost use Rattle.steps.specs.Code.Work.{reason_in, cause_in, update_in_work, HandsBy, EnteredBy};
ghost use Rattle.steps.specs.Code.AtHand.{AccessMade};

use base::Kind;
use course::{Course, Hands, NONE, Work};
use plan::{MAX_GROUPS, MAX_WORKERS};
use tables::FIRSTS;
use updates::{amount_of, target_of};

// How many accesses worker w makes: two for each of its updates.
pub fn accesses(first: &[u32; FIRSTS], w: usize) -> u32
    requires { (w < max_workers) × Rising first.now }
    ensures { result ≡ 2 * updates_in first.now w }
{
    2 * (first[w + 1] - first[w])
}

// The place of the update of worker w's next access.
fn next_place(made: &[u32; MAX_WORKERS], w: usize, first: &[u32; FIRSTS]) -> usize
    requires { (w < max_workers) × (place_next first.now made.now w < max_updates) }
    ensures { result ≡ place_next first.now made.now w }
{
    (first[w] + made[w] / 2) as usize
}

// Why a step of one of sixteen workers is refused by the counts, if it is.
pub fn standstill(
    course: &Course,
    made: &[u32; MAX_WORKERS],
    w: usize,
    blocks: &[bool; MAX_GROUPS],
) -> Result<(), Kind>
    requires { w < max_workers }
    ensures { told result ≡ reason_in max_workers course.now blocks.now made.now w }
{
    let tables = &course.tables;
    if accesses(tables.first, w) <= made[w] {
        return Err(Kind::AllDone);
    }
    let p = tables.row[next_place(made, w, tables.first)] as usize;
    let i = tables.leaves[p] as usize;
    if blocks[i] {
        return Err(Kind::MustWait);
    }
    Ok(())
}

// Why a step of worker w is refused by the counts, if it is.
pub fn refusal(
    course: &Course,
    made: &[u32; MAX_WORKERS],
    w: usize,
    blocks: &[bool; MAX_GROUPS],
) -> Result<(), Kind>
    ensures { told result ≡ cause_in course.now blocks.now made.now w }
{
    if course.workers <= w {
        return Err(Kind::NoWorker);
    }
    standstill(course, made, w, blocks)
}

// Puts worker w's next update at hand.
pub fn look_up(work: &Work, made: &[u32; MAX_WORKERS], w: usize, hands: &mut Hands)
    requires { (w < max_workers) × (count made.now w < 2 * updates_in work.now.course.tables.first.now w) }
    ensures targets { hands.new.targets ≡ set hands.old.targets w (update_in_work work.now made.now w).target }
    ensures adds { hands.new.adds ≡ set hands.old.adds w (update_in_work work.now made.now w).amount }
{
    let tables = &work.course.tables;
    let place = next_place(made, w, tables.first);
    let p = tables.row[place] as usize;
    let k = place - tables.begins[p] as usize;
    hands.targets[w] = target_of(&work.entries, p, k);
    hands.adds[w] = amount_of(&work.entries, work.displaced, p, k);
}

// Worker w loads or stores the sum of the update at hand, which a store ends. A sum to store that would pass 64 bits is
// refused: then all is as it was.
pub fn access(
    made: &mut [u32; MAX_WORKERS],
    held: &mut [i64; MAX_WORKERS],
    sums: &mut [i64],
    w: usize,
    targets: &mut [usize; MAX_WORKERS],
    adds: &[i64; MAX_WORKERS],
) -> Result<(), Kind>
    requires { (w < max_workers) × (count made.old w < 2 * max_updates) × (get_or targets.old w 0 < length sums.old) }
    ensures { AccessMade (state_with made.old held.old sums.old) w targets.old adds.now (told result)
        (state_with made.new held.new sums.new) targets.new }
{
    let t = targets[w];
    if made[w] % 2 == 0 {
        held[w] = sums[t];
        made[w] += 1;
        return Ok(());
    }
    let Some(sum) = held[w].checked_add(adds[w]) else {
        return Err(Kind::Overflow);
    };
    sums[t] = sum;
    made[w] += 1;
    targets[w] = NONE;
    Ok(())
}

// Has worker w's next update at hand, unless its step is refused. From its load to its store an update is at hand.
pub fn enter(
    work: &Work,
    made: &[u32; MAX_WORKERS],
    w: usize,
    blocks: &[bool; MAX_GROUPS],
    hands: &mut Hands,
) -> Result<(), Kind>
    requires { HandsBy work.now blocks.now made.now hands.old.targets hands.old.adds }
    ensures { EnteredBy work.now blocks.now made.now w (told result) hands.new.targets hands.new.adds }
{
    if work.course.workers <= w {
        return Err(Kind::NoWorker);
    }
    if hands.targets[w] < NONE {
        return Ok(());
    }
    refusal(&work.course, made, w, blocks)?;
    look_up(work, made, w, hands);
    Ok(())
}
