// The word that an exported call returns.
ghost use Rattle.std.specs.Prelude.{◌≡◌};
ghost use Rattle.base.specs.Verdicts.{reply_of};
ghost use Rattle.lent.specs.Word.{word};

use base::Refusal;

#[tactic(auto, unfolding(crate::specs::Word::word))]
pub fn word_of(answer: Result<u32, Refusal>) -> u64
    ensures { result ≡ word (reply_of answer) }
{
    match answer {
        Ok(count) => u64::from(count),
        Err(refusal) => u64::from(refusal.kind.number()) * 4294967296 + u64::from(refusal.place),
    }
}
