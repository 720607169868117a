// A run's state: one record.
ghost use Rattle.std.specs.Prelude.{◌≡◌, ℕ, ◌/◌, ◌≤◌, ◌<◌, pos, length, replicate};
ghost use Rattle.plan.specs.Sound.{max_workers};
ghost use Rattle.plan.specs.Groups.{width, records};
ghost use Rattle.plan.specs.Code.Checks.{record_at};
ghost use Rattle.run.specs.Job.{Job, Accepted};
ghost use Rattle.run.specs.Updates.{count};
ghost use Rattle.run.specs.State as run;
ghost use Rattle.machine.specs.Record.{state_of};
ghost use Rattle.machine.specs.Code.Tests.{all_below, fine, done};
ghost use Rattle.tables.specs.Code.Laid.{Rising, LaidIn};
ghost use Rattle.waits.specs.Code.Waits.{Recorded};
ghost use Rattle.steps.specs.Code.Steps.{AheadBy};
ghost use Rattle.machine.specs.Code.Stepped.{walk, walked_of};

use base::Kind;
use plan::MAX_WORKERS;
use steps::course::{Hands, Work};
use steps::{access, accesses, enter};
use tables::FIRSTS;
use waits::blocked::Blocked;

// Accesses made, and the number held, of each of 16 workers.
#[derive(Clone, Copy)]
pub struct State {
    pub made: [u32; MAX_WORKERS],
    pub held: [i64; MAX_WORKERS],
}

// What becomes of a schedule at a pick that its worker cannot make, for it is done or waits: it ends there, or passes
// over it. Any other refusal ends it. An enum of two and no closure: the clauses of both walks speak of it as a value,
// `walk rule j` and `passes_over rule`, where a closure would need a fact on what it answers beside it in each.
#[derive(Clone, Copy)]
pub enum Rule {
    Stop,
    Skip,
}

impl Rule {
    ghost use Rattle.base.specs.Verdicts.{number_of};
    ghost use Rattle.machine.specs.Code.Stepped.{passes_over};

    // Whether a pick that is refused so is passed over.
    pub fn passes(self, kind: Kind) -> bool
        ensures { result ≡ passes_over self (number_of kind) }
    {
        match self {
            Rule::Stop => false,
            Rule::Skip => kind == Kind::AllDone || kind == Kind::MustWait,
        }
    }
}

// What a schedule comes to: the state, how many picks were taken, how many came before the one that ended it, and why
// that one was refused, if one did.
#[derive(Clone, Copy)]
pub struct Walked {
    pub state: State,
    pub taken: usize,
    pub past: usize,
    pub stop: Option<Kind>,
}

impl State {
    // The state that a run begins with.
    pub fn fresh() -> State
        ensures { (n : ℕ) → state_of result (replicate n (pos 0)) ≡ run.fresh n }
    {
        State {
            made: [0u32; MAX_WORKERS],
            held: [0i64; MAX_WORKERS],
        }
    }

    // Takes the picks of a schedule one by one by the tables, up to the first that is refused and that the rule does
    // not pass over. There is a sum for each row.
    pub fn walk(self, sums: &mut [i64], schedule: &[u8], rule: Rule, work: &Work) -> Walked
        requires { (length sums.old ≡ work.now.course.rows) × (work.now.course.workers ≡ (record_at work.now.course.tables.groups.now 0).workers)
            × Recorded (length work.now.course.tables.groups.now / width) work.now.course.tables.groups.now }
        ensures { (j : Job) → Accepted j
            → j.plan.groups ≡ records (length work.now.course.tables.groups.now / width) work.now.course.tables.groups.now
            → LaidIn j work.now.course.tables → AheadBy j self.made (length schedule.now) work.now.course.tables work.now.entries work.now.displaced.now
            → walked_of result sums.new ≡ walk rule j (state_of self sums.old) schedule.now }
    {
        let mut made = self.made;
        let mut held = self.held;
        let records = work.course.records();
        let mut blocked = Blocked::none();
        blocked.find(&records, &made);
        let mut hands = Hands::empty();
        let mut taken = 0;
        for (k, pick) in schedule.iter().enumerate() {
            let w = *pick as usize;
            let step = match enter(work, &made, w, &blocked.blocks, &mut hands) {
                Ok(()) => access(
                    &mut made,
                    &mut held,
                    sums,
                    w,
                    &mut hands.targets,
                    &hands.adds,
                ),
                Err(kind) => Err(kind),
            };
            match step {
                Ok(()) => {
                    taken += 1;
                    if blocked.renew(&records, &made, w) {
                        hands.clear();
                    }
                }
                Err(kind) => {
                    if !rule.passes(kind) {
                        return Walked {
                            state: State { made, held },
                            taken,
                            past: k,
                            stop: Some(kind),
                        };
                    }
                }
            }
        }
        Walked {
            state: State { made, held },
            taken,
            past: schedule.len(),
            stop: None,
        }
    }

    // How many accesses worker w has made.
    pub fn moves(self, w: usize) -> u32
        requires { w < max_workers }
        ensures { result ≡ count self.made w }
    {
        self.made[w]
    }

    // No worker has made more than its accesses.
    pub fn is_fine(self, first: [u32; FIRSTS]) -> bool
        requires { Rising first }
        ensures { result ≡ all_below (fine first self.made) max_workers }
    {
        for w in 0..MAX_WORKERS {
            if accesses(&first, w) < self.made[w] {
                return false;
            }
        }
        true
    }

    // Every worker of the plan has made all its accesses.
    pub fn is_finished(self, first: [u32; FIRSTS], workers: usize) -> bool
        requires { (workers ≤ max_workers) × Rising first }
        ensures { result ≡ all_below (done first self.made) workers }
    {
        for w in 0..workers {
            if self.made[w] < accesses(&first, w) {
                return false;
            }
        }
        true
    }
}
