// A run's state in bytes.
ghost use Rattle.std.specs.Prelude.{◌≡◌, cond, [], ◌++◌, ◌≤◌, eqb, length, take};
ghost use Rattle.matrix.specs.Code.Room.{max_starts};
ghost use Rattle.words.specs.LittleEndian.{signed, unsigned_bytes, signed_bytes, stored};
ghost use Rattle.answers.specs.Runs.{state_bytes};
ghost use Rattle.answers.specs.Code.Ran.{StateIs};

use machine::state::State;
use matrix::limits::MAX_STARTS;
use plan::MAX_WORKERS;
use words::lists::{load, store};

// "a state is 192 bytes": each worker's count, then what it holds.
const COUNT_BYTES: usize = 4 * MAX_WORKERS;

pub const STATE_BYTES: usize = COUNT_BYTES + 8 * MAX_WORKERS;

// Bytes of another length are no state; for those a fresh one stands in.
pub fn load_state(bytes: &[u8]) -> State
    ensures { length bytes.now ≡ state_bytes → StateIs result bytes.now }
{
    if bytes.len() != STATE_BYTES {
        return State::fresh();
    }
    let mut made = [0u32; MAX_WORKERS];
    load(&bytes[..COUNT_BYTES], &mut made);
    let mut held = [0i64; MAX_WORKERS];
    load(&bytes[COUNT_BYTES..], &mut held);
    State { made, held }
}

// The sums beside a state: none where the bytes are no state, so that it is refused as one without n sums.
pub fn sums_of<'a>(state: &[u8], sums: &'a [u8]) -> &'a [u8]
    ensures { result.now ≡ cond (eqb (length state.now) state_bytes) sums.now [] }
{
    if state.len() != STATE_BYTES {
        return &sums[..0];
    }
    sums
}

// .. loaded into an array, as far as any matrix reaches: how many they are.
pub fn load_sums(state: &[u8], sums: &[u8], array: &mut [i64; MAX_STARTS]) -> usize
    ensures fit { result ≤ length array.new }
    ensures are { take result array.new ≡ cond (eqb (length state.now) state_bytes) (take max_starts (signed 8 sums.now)) [] }
{
    load(sums_of(state, sums), array)
}

pub fn store_state(state: State, bytes: &mut [u8])
    requires { length bytes.old ≡ state_bytes }
    ensures { bytes.new ≡ stored (unsigned_bytes 4 state.made ++ signed_bytes 8 state.held) bytes.old }
{
    let made = state.made;
    store(&made, &mut bytes[..COUNT_BYTES]);
    let held = state.held;
    store(&held, &mut bytes[COUNT_BYTES..]);
}
