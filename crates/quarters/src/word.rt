// The word of both ready sets.
ghost use Rattle.std.specs.Prelude.{◌≡◌};
ghost use Rattle.lent.specs.Word.{word};
ghost use Rattle.shared.specs.Performed.{as_sets};
ghost use Rattle.quarters.specs.Both.{reply_to_both};
ghost use Rattle.quarters.specs.Code.Loaded.{FewReady};

use base::Refusal;
use shared::Sets;

// The value of the lowest bit of crew 1's bits, of crew 0's count and of crew 1's.
const BITS1: u64 = 65536;

const COUNT0: u64 = 1099511627776;

const COUNT1: u64 = 281474976710656;

// Each crew's bits, then each crew's count of those set; or a refusal's number and place.
#[tactic(auto, unfolding(lent::specs::Word::word, answers::specs::Runs::reply_to, crate::specs::Both::reply_to_both))]
pub(crate) fn word_of_sets(sets: Result<Sets, Refusal>) -> u64
    requires { FewReady sets }
    ensures { result ≡ word (reply_to_both (as_sets sets)) }
{
    match sets {
        Ok(both) => {
            both.bits0 as u64
                + both.bits1 as u64 * BITS1
                + both.count0 as u64 * COUNT0
                + both.count1 as u64 * COUNT1
        }
        Err(refusal) => lent::word::word_of(Err(refusal)),
    }
}
