// A call that fills a caller's buffer.
ghost use Rattle.std.specs.Prelude.{◌≡◌};
ghost use Rattle.refusals.specs.Order.{unchecked};
ghost use Rattle.refusals.specs.Filling.{fill_reply_of, fill};

use crate::Refusal;

// The content at the front of a caller's buffer, the rest untouched. Answers how many entries it has, or refusal 16, which leaves the buffer as
// it was.
pub fn fill_front<T: Copy>(content: &[T], lent: &mut [T]) -> Result<usize, Refusal>
    ensures answer { fill_reply_of result ≡ (fill unchecked content.now lent.old).reply }
    ensures memory { lent.new ≡ (fill unchecked content.now lent.old).buffer }
{
    let count = content.len();
    if lent.len() < count {
        return Err(Refusal::SmallBuffer);
    }
    lent[..count].copy_from_slice(content);
    Ok(count)
}
