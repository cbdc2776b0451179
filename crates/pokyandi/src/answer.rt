// An answer as one number, for callers in C and Rust.
ghost use Rattle.std.specs.Prelude.{◌≡◌};
ghost use Rattle.refusals.specs.Filling.{fill_reply_of};
ghost use Rattle.pokyandi.specs.Answers.{answer_number};

use refusals::Refusal;

// A count as it is; a refusal with its number in the upper 32 bits, its place in the lower ones.
#[tactic(auto, unfolding(crate::specs::Answers::answer_number))]
pub(crate) fn answer_number(answer: Result<usize, Refusal>) -> u64
    ensures { result ≡ answer_number (fill_reply_of answer) }
{
    match answer {
        Ok(count) => count as u64,
        Err(refusal) => {
            let number = u64::from(refusal.number());
            let place = u64::from(refusal.place());
            number * 4294967296 + place
        }
    }
}
