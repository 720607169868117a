// The first line: where it ends, and its two numbers.

ghost use Rattle.std.specs.Prelude.{◌≡◌, length};
ghost use Rattle.listing.specs.Listing.{first_line, parameters_of};
ghost use Rattle.listing.specs.Code.FirstLine.{in_word, given};

use scan::numbers::read_number;

// How many bytes the first line has, without its line feed.
pub(crate) fn line_length(input: &[u8]) -> usize
    ensures { result ≡ length (first_line input.now) }
{
    for (i, b) in input.iter().enumerate() {
        if *b == b'\n' {
            return i;
        }
    }
    input.len()
}

// A number in 32 bits: the largest of them where it is larger.
#[tactic(auto, using(std::proofs::lemmas::Bool::Decides::nat_tests))]
fn narrow(v: u64) -> u32
    ensures { result ≡ in_word v }
{
    v.min(u32::MAX as u64) as u32
}

// The two numbers of the first line, workers and p, or none.
pub(crate) fn read_parameters(line: &[u8]) -> Option<(u32, u32)>
    ensures { result ≡ given (parameters_of line.now) }
{
    let (workers, gap) = read_number(line, 0)?;
    if line.len() <= gap {
        return None;
    }
    if line[gap] != b' ' {
        return None;
    }
    let (p, end) = read_number(line, gap + 1)?;
    if end != line.len() {
        return None;
    }
    Some((narrow(workers), narrow(p)))
}
