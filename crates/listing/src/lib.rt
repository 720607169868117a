// netplan's whole answer: from the bytes that it reads to the bytes that it writes.
#![tactic(auto)]

mod first_line;
mod lines;

ghost use Rattle.std.specs.Prelude.{◌≡◌, true, ◌++◌, ◌≤◌, length, drop};
ghost use Rattle.matrix.specs.Matrix.{is_matrix};
ghost use Rattle.matrix.specs.Held.{held};
ghost use Rattle.market.specs.Parse.{parse};
ghost use Rattle.writer.specs.Code.Puts.{Put};
ghost use Rattle.listing.specs.Listing.{parameters, parameters_of, planned, judged, listing};
ghost use Rattle.listing.specs.Code.Room.{max_output};

use crate::first_line::{line_length, read_parameters};
use crate::lines::{put_plan, put_refusal};
use base::{Kind, Refusal};
use matrix::limits::{MAX_CELLS, MAX_ROWS, MAX_STARTS};
use matrix::lists::Matrix;
use plan::MAX_GROUPS;
use plan::fields::{MAX_FIELDS, WIDTH};
use plan::lists::Plan;
use planner::plan;
use reader::read;

// "24,576 bytes together at most"
pub const MAX_INPUT: usize = 24576;

// A number and the space or line feed beside it; the order's first word and the title; a record's line, after its
// index; all.
const NUMBER: usize = 11;

const TITLES: usize = 59;

const LINE: usize = NUMBER * (WIDTH + 1);

pub const MAX_OUTPUT: usize = TITLES + NUMBER * MAX_ROWS + LINE * MAX_GROUPS;

// "`netplan` keeps 2"
const DISTANCE: u32 = 2;

// What is written for a matrix and two parameters, and the place after it.
fn put_planned(output: &mut [u8], m: &Matrix, workers: u32, p: u32) -> usize
    requires { (is_matrix (held m.now) ≡ true) × (max_output ≤ length output.old) }
    ensures { Put (planned (held m.now) (parameters workers p)) 0 result output.old output.new }
{
    let mut order = [0u32; MAX_ROWS];
    let mut groups = [0u32; MAX_FIELDS];
    match plan(m, workers, p, DISTANCE, &mut order, &mut groups) {
        Err(refusal) => put_refusal(output, refusal),
        Ok(count) => {
            let made = Plan {
                order: &order,
                groups: &groups,
                count: count as usize,
            };
            put_plan(output, m.n, &made)
        }
    }
}

// What is written for a first line and a matrix text, and the place after it.
fn put_judged(output: &mut [u8], line: &[u8], text: &[u8]) -> usize
    requires { max_output ≤ length output.old }
    ensures { Put (judged (parse text.now) (parameters_of line.now)) 0 result output.old output.new }
{
    let mut starts = [0u32; MAX_STARTS];
    let mut columns = [0u32; MAX_CELLS];
    let mut values = [0i32; MAX_CELLS];
    let n = match read(text, &mut starts, &mut columns, &mut values) {
        Err(refusal) => return put_refusal(output, refusal),
        Ok(n) => n as usize,
    };
    let Some((workers, p)) = read_parameters(line) else {
        return put_refusal(
            output,
            Refusal {
                kind: Kind::BadParameter,
                place: 0,
            },
        );
    };
    let m = Matrix {
        n,
        starts: &starts,
        columns: &columns,
        values: &values,
    };
    put_planned(output, &m, workers, p)
}

// What netplan writes for what it reads, and how many bytes that is; the rest of the output is as it was.
pub fn listing(input: &[u8], output: &mut [u8; MAX_OUTPUT]) -> usize
    ensures value { result ≡ length (listing input.now) }
    ensures output_after { output.new ≡ listing input.now ++ drop (length (listing input.now)) output.old }
{
    if MAX_INPUT < input.len() {
        return put_refusal(
            output,
            Refusal {
                kind: Kind::BadForm,
                place: 0,
            },
        );
    }
    let end = line_length(input);
    if end < input.len() {
        return put_judged(output, &input[..end], &input[end + 1..]);
    }
    put_judged(output, input, &[])
}
