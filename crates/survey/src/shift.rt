// The shift that reaches a row's amount.
ghost use Rattle.std.specs.Prelude.{◌≡◌, ◌++◌, map, ◌+◌, ◌≤◌, length, drop};
ghost use Rattle.base.specs.Lists.{range, is_in};
ghost use Rattle.matrix.specs.Matrix.{lookup};
ghost use Rattle.survey.specs.Survey.{max_error, with_sign};
ghost use Rattle.survey.specs.Code.Rows.{Passed, Shifting};

// t with the sign of v, 0 where it is 0.
fn with_sign(t: u32, v: i32) -> i32
    requires { t ≤ max_error }
    ensures { result ≡ with_sign t v }
{
    let up = t as i32;
    if 0 < v {
        up
    } else if v < 0 {
        0 - up
    } else {
        0
    }
}

// A row's columns and a column j: k of them stand before it.
#[derive(Clone, Copy)]
struct Cursor<'a> {
    columns: &'a [u32],
    k: usize,
    j: u32,
    ghost passed: { Passed columns.now k j },
}

impl Cursor<'_> {
    // Whether column j is one of the columns.
    fn stands(&self) -> bool
        ensures { result ≡ is_in self.now.columns.now self.now.j }
    {
        self.k < self.columns.len() && self.columns[self.k] == self.j
    }

    // The value in column j, 0 where there is none.
    fn value(&self, values: &[i32]) -> i32
        requires { length self.now.columns.now ≡ length values.now }
        ensures { result ≡ lookup self.now.j self.now.columns.now values.now }
    {
        if self.stands() { values[self.k] } else { 0 }
    }

    // How many columns stand before the column after j.
    fn past(&self) -> usize
        ensures { Passed self.now.columns.now result (self.now.j + 1) }
    {
        if self.stands() { self.k + 1 } else { self.k }
    }
}

// t with the sign of the row's value in each column, in the first n places.
pub(crate) fn put_shift(columns: &[u32], values: &[i32], t: u32, n: usize, out: &mut [i32])
    requires { Shifting columns.now values.now t n (length out.old) }
    ensures { out.new ≡ map (λ j. with_sign t (lookup j columns.now values.now)) (range 0 n) ++ drop n out.old }
{
    let mut k = 0;
    for j in 0..n {
        let cursor = Cursor {
            columns,
            k,
            j: j as u32,
        };
        out[j] = with_sign(t, cursor.value(values));
        k = cursor.past();
    }
}
