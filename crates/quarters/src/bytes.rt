// What is lent for two crews, in bytes; and the states of both.
ghost use Rattle.quarters.specs.Code.Loaded.{CrewsAre};

use answers::state::load_state;
use lent::nets::NetBytes;
use lent::plans::PlanBytes;
use turns::Crews;

// What both crews work under: a matrix, the movement of each row for each crew, and a plan.
#[derive(Clone, Copy)]
pub struct RoofBytes<'a> {
    pub net: NetBytes<'a>,
    pub movements0: &'a [u8],
    pub movements1: &'a [u8],
    pub plan: PlanBytes<'a>,
}

// Where bytes are no state, a fresh one stands in.
pub fn load_crews(state0: &[u8], state1: &[u8]) -> Crews
    ensures { CrewsAre result state0.now state1.now }
{
    Crews {
        of0: load_state(state0),
        of1: load_state(state1),
    }
}
