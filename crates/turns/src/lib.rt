// The machine of two crews: their states, and picks for both taken one by one (document 02, Q-9).
#![tactic(auto)]

mod both;
pub mod inside;
mod pick;
mod turn;

ghost use Rattle.std.specs.Prelude.{◌≡◌, ◌/◌, length};
ghost use Rattle.plan.specs.Groups.{width, records};
ghost use Rattle.tables.specs.Code.Laid.{Counted, LaidIn};
ghost use Rattle.layout.specs.Code.SizedPlan.{PlannedBy};
ghost use Rattle.plan.specs.Code.Checks.{record_at};
ghost use Rattle.waits.specs.Code.Waits.{Recorded};
ghost use Rattle.steps.specs.Code.Updates.{Triangle};
ghost use Rattle.crews.specs.Crews.{Crew, crew0, crew1, own_of, Roof, job_for, turns};
ghost use Rattle.crews.specs.TwoCrews.{AcceptedRoof};
ghost use Rattle.turns.specs.Records.{states_of};
ghost use Rattle.turns.specs.Code.Both.{both, both_moves};
ghost use Rattle.turns.specs.Code.Turned.{turned_of};

use base::Kind;
use both::{BothBlocked, BothHands};
use layout::lay_tables;
use layout::updates::{SizedPlan, Updates};
use machine::state::State;
use matrix::limits::MAX_ROWS;
use pick::{access_for, begin_for, renew_for};
use plan::MAX_GROUPS;
use steps::course::{Course, Hands, Work};
use tables::{Entries, FIRSTS, MAX_UPDATES};
use waits::blocked::Blocked;

// How many crews there are.
pub const CREWS: usize = 2;

// The state of each crew's run.
#[derive(Clone, Copy)]
pub struct Crews {
    pub of0: State,
    pub of1: State,
}

// What a schedule comes to: the states, how many picks were taken, and why the one that ended it was refused, if one
// did.
#[derive(Clone, Copy)]
pub struct Turned {
    pub crews: Crews,
    pub taken: usize,
    pub stop: Option<Kind>,
}

impl Crews {
    // Takes the picks of a schedule one by one by the tables, up to the first that is refused. The tables and entries
    // are those of both; there is a sum for each row, for each crew.
    fn walk(
        self,
        sums0: &mut [i64],
        sums1: &mut [i64],
        schedule: &[u8],
        work0: &Work,
        work1: &Work,
    ) -> Turned
        requires { (work1.now.course ≡ work0.now.course) × (work1.now.entries ≡ work0.now.entries)
            × (length sums0.old ≡ work0.now.course.rows) × (length sums1.old ≡ work0.now.course.rows)
            × (work0.now.course.workers ≡ (record_at work0.now.course.tables.groups.now 0).workers)
            × Recorded (length work0.now.course.tables.groups.now / width) work0.now.course.tables.groups.now }
        ensures { (q : Roof) → AcceptedRoof q
            → q.plan.groups ≡ records (length work0.now.course.tables.groups.now / width) work0.now.course.tables.groups.now
            → ((c : Crew) → LaidIn (job_for q c) work0.now.course.tables)
            → ((c : Crew) → Triangle (job_for q c) work0.now.entries.parts.now (own_of (both_moves work0.now work1.now) c) work0.now.entries.at.now work0.now.entries.beside.now)
            → turned_of result sums0.new sums1.new ≡ turns q (states_of self sums0.old sums1.old) schedule.now }
    {
        let mut crews = self;
        let records = work0.course.records();
        let mut blocked = BothBlocked {
            of0: Blocked::none(),
            of1: Blocked::none(),
        };
        blocked.of0.find(&records, &crews.of0.made);
        blocked.of1.find(&records, &crews.of1.made);
        let mut hands = BothHands {
            of0: Hands::empty(),
            of1: Hands::empty(),
        };
        for (k, pick) in schedule.iter().enumerate() {
            let who = *pick as usize;
            if let Err(kind) = begin_for(who, work0, work1, &crews, &blocked, &mut hands) {
                return Turned {
                    crews,
                    taken: k,
                    stop: Some(kind),
                };
            }
            if let Err(kind) = access_for(&mut crews, sums0, sums1, who, &mut hands) {
                return Turned {
                    crews,
                    taken: k,
                    stop: Some(kind),
                };
            }
            if renew_for(&records, &crews, who, &mut blocked) {
                hands.of0.clear();
                hands.of1.clear();
            }
        }
        Turned {
            crews,
            taken: schedule.len(),
            stop: None,
        }
    }

    // .. by the upper triangle and its sizes: lays the rows of the updates. There is a sum for each row, for each crew.
    pub fn take(
        self,
        sums0: &mut [i64],
        sums1: &mut [i64],
        schedule: &[u8],
        plan: &SizedPlan,
        first: [u32; FIRSTS],
        entries: &Entries,
        displaced: &[[i32; MAX_ROWS]; CREWS],
    ) -> Turned
        requires { (q : Roof) × ((c : Crew) → PlannedBy (job_for q c) plan.now) × ((c : Crew) → Counted (job_for q c) first)
            × Triangle (job_for q crew0) entries.now.parts.now (both displaced.now).of0 entries.now.at.now entries.now.beside.now
            × (length sums0.old ≡ q.matrix.n) × (length sums1.old ≡ q.matrix.n) }
        ensures { (q : Roof) → ((c : Crew) → PlannedBy (job_for q c) plan.now) → ((c : Crew) → Counted (job_for q c) first)
            → Triangle (job_for q crew0) entries.now.parts.now (both displaced.now).of0 entries.now.at.now entries.now.beside.now
            → Triangle (job_for q crew1) entries.now.parts.now (both displaced.now).of1 entries.now.at.now entries.now.beside.now
            → turned_of result sums0.new sums1.new ≡ turns q (states_of self sums0.old sums1.old) schedule.now }
    {
        let mut updates = Updates {
            row: [0u16; MAX_UPDATES],
            begins: [0u32; MAX_ROWS],
            leaves: [0u16; MAX_ROWS],
            ends: [0u32; MAX_GROUPS],
        };
        let tables = lay_tables(plan.groups, plan.sizes, &first, &mut updates);
        let course = Course::of(&tables, sums0.len());
        let work0 = Work {
            course,
            entries: *entries,
            displaced: &displaced[0],
        };
        let work1 = Work {
            course,
            entries: *entries,
            displaced: &displaced[1],
        };
        self.walk(sums0, sums1, schedule, &work0, &work1)
    }
}
