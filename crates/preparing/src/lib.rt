// A job's prepared list: its tables, found once.
#![tactic(auto)]

pub mod fill;
pub mod gates;
pub mod rows;
pub mod table;

ghost use Rattle.std.specs.Prelude.{◌≡◌, true, map, ◌++◌, ◌+◌, ◌*◌, ◌^◌, ◌≤◌, ◌<◌, length, take};
ghost use Rattle.std.proofs.lemmas.List.Edits.{sets};
ghost use Rattle.base.specs.Lists.{concat, range, position_of};
ghost use Rattle.base.specs.Verdicts.{reply_of};
ghost use Rattle.matrix.specs.Limits.{max_rows};
ghost use Rattle.matrix.specs.Held.{held};
ghost use Rattle.plan.specs.Sound.{max_workers, each_once};
ghost use Rattle.run.specs.Job as run;
ghost use Rattle.calls.specs.Code.Held.{job_in, GivenIn};
ghost use Rattle.tables.specs.Code.Laid.{max_updates, first_of, Counted, Rising};
ghost use Rattle.layout.specs.Code.SizedPlan.{PlannedBy};
ghost use Rattle.steps.specs.Code.Updates as job_updates;
ghost use Rattle.words.specs.LittleEndian.{unsigned_bytes};
ghost use Rattle.prepared.specs.Format.{head_bytes, gates_from, gate_bytes, row_bytes, bytes_of_update, head_of, lists_of};
ghost use Rattle.prepared.specs.Prepare.{PreparedFrom};
ghost use Rattle.preparing.specs.Code.Prepared.{PreparedIn};

use base::{Kind, Refusal};
use calls::{Job, check_job};
use fill::{store_gates, store_numbers, store_updates};
use layout::counts::first_updates;
use layout::lay_tables;
use layout::updates::{SizedPlan, Updates};
use matrix::limits::MAX_ROWS;
use plan::fields::{WIDTH, get};
use plan::lists::Plan;
use plan::{MAX_GROUPS, MAX_WORKERS};
use prepared::{HEAD, ROW, UPDATE};
use rows::head_numbers;
use table::all_gates;
use tables::{Entries, FIRSTS, MAX_UPDATES};
use upper::order::{displace, positions};
use upper::triangle::{OrderedMatrix, Triangle};
use upper::upper;

// Writes the head, by where each worker's updates begin.
fn store_head(out: &mut [u8], n: u32, crew: u32, first: [u32; FIRSTS])
    requires { Rising first × (head_bytes ≤ length out.old) }
    ensures { (j : run.Job) → Counted j first → n ≡ j.matrix.n → crew ≡ run.workers j → out.new ≡ sets out.old 0 (unsigned_bytes 4 (head_of (lists_of j))) }
{
    let head = head_numbers(n, crew, &first);
    store_numbers(out, 0, &head);
}

// Writes the position of each row, from a place on.
fn store_places(out: &mut [u8], from: usize, n: usize, order: &[u32])
    requires { (from + n * 4 ≤ length out.old) × (n ≤ length order.now) × (n ≤ max_rows) × (each_once n (take n order.now) ≡ true) }
    ensures { out.new ≡ sets out.old from (unsigned_bytes 4 (map (position_of (take n order.now)) (range 0 n))) }
{
    let mut places = [0u32; MAX_ROWS];
    positions(order, n, &mut places);
    store_numbers(out, from, &places[..n]);
}

// Lays the tables of n rows, and writes updates and gates after the head. There is room for them.
fn store_tables(
    out: &mut [u8],
    n: usize,
    plan: &SizedPlan,
    first: [u32; FIRSTS],
    entries: &Entries,
    displaced: &[i32; MAX_ROWS],
)
    requires { (j : run.Job) × PlannedBy j plan.now × Counted j first
        × job_updates.Triangle j entries.now.parts.now displaced.now entries.now.at.now entries.now.beside.now
        × (n ≡ j.matrix.n) × (gates_from (first_of j max_workers) + n * gate_bytes ≤ length out.old) }
    ensures { (j : run.Job) → PlannedBy j plan.now → Counted j first
        → job_updates.Triangle j entries.now.parts.now displaced.now entries.now.at.now entries.now.beside.now → n ≡ j.matrix.n
        → out.new ≡ sets out.old head_bytes (concat (map bytes_of_update (lists_of j).updates) ++ unsigned_bytes 4 (lists_of j).gates) }
{
    let mut updates = Updates {
        row: [0u16; MAX_UPDATES],
        begins: [0u32; MAX_ROWS],
        leaves: [0u16; MAX_ROWS],
        ends: [0u32; MAX_GROUPS],
    };
    let tables = lay_tables(plan.groups, plan.sizes, &first, &mut updates);
    let table = all_gates(tables.groups, tables.groups.len() / WIDTH, tables.ends);
    let count = first[MAX_WORKERS] as usize;
    store_updates(out, HEAD, count, &tables, entries, displaced);
    store_gates(out, HEAD + count * UPDATE, n, tables.leaves, &table);
}

// The bytes of a list with so many rows and updates.
fn size_of(n: usize, count: u32) -> usize
    requires { (n ≤ max_rows) × (count ≤ max_updates) }
    ensures { (result ≡ gates_from count + n * row_bytes) × (result < 2 ^ 32) }
{
    HEAD + count as usize * UPDATE + n * ROW
}

// Writes the prepared list of an accepted job, if there is room for it. Its arrays are not there while a job is
// checked.
#[inline(never)]
fn store_job(job: &Job, out: &mut [u8]) -> Result<u32, Refusal>
    requires { GivenIn job.now }
    ensures { PreparedIn (job_in job.now) out.old (reply_of result) out.new }
{
    let rows = job.matrix.n;
    let order = job.plan.order;
    let ordered = OrderedMatrix {
        m: job.matrix,
        order,
    };
    let mut triangle = Triangle {
        parts: [0u32; MAX_ROWS],
        at: [0u16; MAX_UPDATES],
        beside: [0i32; MAX_UPDATES],
    };
    let mut sizes = [0u32; MAX_ROWS];
    upper(&ordered, &mut sizes, &mut triangle);
    let plan = SizedPlan {
        groups: job.plan.groups,
        sizes: &sizes,
    };
    let first = first_updates(plan.groups, plan.groups.len() / WIDTH, plan.sizes);
    let size = size_of(rows, first[MAX_WORKERS]);
    if out.len() < size {
        return Err(Refusal {
            kind: Kind::TooShort,
            place: size as u32,
        });
    }
    let mut displaced = [0i32; MAX_ROWS];
    displace(job.displacements, order, &mut displaced);
    let whole = get(plan.groups, 0);
    store_head(out, rows as u32, whole.workers, first);
    let entries = Entries {
        parts: &triangle.parts,
        at: &triangle.at,
        beside: &triangle.beside,
    };
    store_tables(out, rows, &plan, first, &entries, &displaced);
    store_places(out, size - 4 * rows, rows, order);
    Ok(size as u32)
}

// The prepared list of the job in the lent lists, if they hold one and there is room.
pub fn prepare(job: &Job, out: &mut [u8]) -> Result<u32, Refusal>
    ensures { PreparedFrom (held job.now.matrix) job.now.displacements.now job.now.plan.order.now job.now.plan.groups.now job.now.plan.count
        out.old (reply_of result) out.new }
{
    check_job(job)?;
    let records = &job.plan.groups[..WIDTH * job.plan.count];
    let cut = Job {
        matrix: job.matrix,
        displacements: job.displacements,
        plan: Plan {
            order: job.plan.order,
            groups: records,
            count: job.plan.count,
        },
    };
    store_job(&cut, out)
}
