// structs: plans a chain of eight rows into a slice of group structs, and checks the plan.
// A plan with a group twice, or with a wrong depth, is not sound, and a slice is too short for the plan of more rows.
#![tactic(auto)]

ghost use Rattle.std.specs.Prelude.{◌≡◌, map, ◌*◌, length};
ghost use Rattle.base.specs.Replies.{lent};
ghost use Rattle.base.specs.Verdicts.{reply_of, reply_of_check};
ghost use Rattle.matrix.specs.Held.{held};
ghost use Rattle.plan.specs.Groups.{width, flat, group_of};
ghost use Rattle.plan.specs.Sound.{check_reply};
ghost use Rattle.race.specs.Planner.{plan, plan_reply};
ghost use Rattle.groups.specs.Structs.{of_group};

use base::Refusal;
use matrix::lists::Matrix;
use plan::fields::Group;
use std::io;

// The distance that a run asks for.
const DISTANCE: u32 = 2;

// The plan of a matrix in a list of groups.
fn plan_in(
    m: &Matrix,
    workers: u32,
    p: u32,
    order: &mut [u32],
    list: &mut [Group],
) -> Result<u32, Refusal>
    ensures reply { reply_of result ≡ plan_reply (held m.now) workers p 2 (length order.old) (width * length list.old) }
    ensures lent_groups { list.new ≡ lent (plan_reply (held m.now) workers p 2 (length order.old) (width * length list.old))
        (map of_group (plan (held m.now) workers p 2).groups) list.old }
{
    groups::plan(m, workers, p, DISTANCE, order, list)
}

// The check of a plan.
fn check_in(m: &Matrix, order: &[u32], list: &[Group]) -> Result<(), Refusal>
    ensures { reply_of_check result ≡ check_reply (held m.now) order.now (flat (map group_of list.now)) (length list.now) 2 }
{
    groups::check(m, order, list, DISTANCE)
}

// Writes an answer's line.
fn put_answer(rt: &impl Print, answer: Result<u32, Refusal>) -> io::Result<()> {
    match answer {
        Ok(count) => println!(rt; "accepted {count}"),
        Err(refusal) => println!(rt; "refused {} {}", refusal.kind.number(), refusal.place),
    }
}

// Writes a group's line: its fields.
fn put_group(rt: &impl Print, g: Group) -> io::Result<()> {
    println!(rt;
        "group {} {} {} {} {} {} {}",
        g.start, g.length, g.first, g.workers, g.colour, g.parent, g.depth
    )
}

// A group that stands for none.
fn none() -> Group {
    Group {
        start: 0,
        length: 0,
        first: 0,
        workers: 0,
        colour: 0,
        parent: 0,
        depth: 0,
    }
}

// The columns of a chain of eight rows, row by row.
fn chain_columns() -> [u32; 22] {
    [
        0, 1, 0, 1, 2, 1, 2, 3, 2, 3, 4, 3, 4, 5, 4, 5, 6, 5, 6, 7, 6, 7,
    ]
}

// .. and its values: 2 on the diagonal, -1 beside it.
fn chain_values() -> [i32; 22] {
    [
        2, -1, -1, 2, -1, -1, 2, -1, -1, 2, -1, -1, 2, -1, -1, 2, -1, -1, 2, -1, -1, 2,
    ]
}

// Checks a plan, and writes the answer's line.
fn put_check(rt: &impl Print, m: &Matrix, order: &[u32], groups: &[Group]) -> io::Result<()> {
    let answer = check_in(m, order, groups);
    put_answer(rt, answer.map(|()| 0))
}

// Checks a plan of eight rows: it is sound; with a group twice, or one at another depth, it is not.
fn put_checks(rt: &impl Print, m: &Matrix, order: &[u32], groups: [Group; 5]) -> io::Result<()> {
    put_check(rt, m, order, &groups)?;
    let mut twice = groups;
    twice[2] = groups[1];
    put_check(rt, m, order, &twice)?;
    let mut raised = groups;
    raised[1].depth = 0;
    put_check(rt, m, order, &raised)
}

// The chain is planned for two workers, and its plan is checked.
fn chain(rt: &impl Print) -> io::Result<()> {
    let m = Matrix {
        n: 8,
        starts: &[0, 2, 5, 8, 11, 14, 17, 20, 22],
        columns: &chain_columns(),
        values: &chain_values(),
    };
    let mut order = [0u32; 8];
    let mut list = [none(); 5];
    let answer = plan_in(&m, 2, 60, &mut order, &mut list);
    put_answer(rt, answer)?;
    for g in list {
        put_group(rt, g)?;
    }
    put_checks(rt, &m, &order, list)
}

// Sixteen unjoined rows and four workers need more than five groups.
fn unjoined(rt: &impl Print) -> io::Result<()> {
    let m = Matrix {
        n: 16,
        starts: &[0; 17],
        columns: &[],
        values: &[],
    };
    let mut order = [0u32; 16];
    let answer = plan_in(&m, 4, 60, &mut order, &mut [none(); 5]);
    put_answer(rt, answer)
}

fn main(rt: HostRuntime) -> io::Result<()> {
    chain(&rt)?;
    unjoined(&rt)
}
