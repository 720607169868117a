// The lines before the size line: line 1, and the lines that begin with %.

ghost use Rattle.std.specs.Prelude.{◌≡◌, ◌≤◌, length};
ghost use Rattle.base.specs.Lists.{begins};
ghost use Rattle.matrix.specs.Limits.{max_text};
ghost use Rattle.market.specs.Bytes.{header};
ghost use Rattle.reader.specs.Code.Opening.{LineEnds, Skipped};

use market::HEADER;
use scan::classes::{LINE_END, class_of};

// Whether a text begins with line 1.
pub(crate) fn has_header(s: &[u8]) -> bool
    ensures { result ≡ begins s.now header }
{
    s.starts_with(&HEADER)
}

// The position after the line feed of the line at a position, if it has one.
fn line_end(s: &[u8], at: usize) -> Option<usize>
    ensures { LineEnds s.now at result }
{
    for i in at..s.len() {
        if class_of(s[i]) == LINE_END {
            return Some(i + 1);
        }
    }
    None
}

// A line's number and position.
#[derive(Clone, Copy)]
pub(crate) struct LineStart {
    pub line: u32,
    pub pos: usize,
}

// The first line from a position on that does not begin with %; the line at the position has the given number.
pub(crate) fn skip_comments(s: &[u8], at: usize, first: u32) -> LineStart
    requires { (first ≤ at) × (at ≤ length s.now) × (length s.now ≤ max_text) }
    ensures { Skipped s.now at first result }
{
    let mut i = at;
    let mut line = first;
    // A turn goes on where the line ends, which is no next number.
    while i < s.len() {
        let b = s[i];
        if b != b'%' {
            return LineStart { line, pos: i };
        }
        let Some(e) = line_end(s, i) else {
            return LineStart { line, pos: s.len() };
        };
        i = e;
        line += 1;
    }
    LineStart { line, pos: i }
}
