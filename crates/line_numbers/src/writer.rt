// The numbers of a line, at the front of the caller's.
ghost use Rattle.std.specs.Prelude.{◌≡◌, [], ◌∷◌, ◌++◌, ◌+◌, ◌≤◌, length, take, drop};
ghost use Rattle.refusals.specs.Filling.{fill_reply_of, fill};
ghost use Rattle.line_numbers.specs.Numbers.{number_count, line_numbers, few_check};

use line::{Line, side_bit};
use refusals::{Refusal, must};

// Five numbers from `at` on. (A block of five, moved by `copy_from_slice`, takes longer than five stores.)
fn store_five(numbers: &mut [u32], at: usize, a: u32, b: u32, c: u32, d: u32, e: u32)
    requires { at + 5 ≤ length numbers.old }
    ensures { numbers.new ≡ take at numbers.old ++ (a ∷ b ∷ c ∷ d ∷ e ∷ []) ++ drop (at + 5) numbers.old }
{
    numbers[at] = a;
    numbers[at + 1] = b;
    numbers[at + 2] = c;
    numbers[at + 3] = d;
    numbers[at + 4] = e;
}

// The numbers of a line of at most 64 curves, at the front of numbers that are enough.
#[tactic(auto, using(crate::proofs::Storing::entry_stored), unfolding(crate::specs::Numbers::line_numbers, crate::specs::Numbers::numbers_to))]
fn store_line(line: &Line, numbers: &mut [u32])
    requires { (line.now.count ≤ 64) × (number_count line.now.count ≤ length numbers.old) }
    ensures { numbers.new ≡ line_numbers line.now ++ drop (number_count line.now.count) numbers.old }
{
    store_five(
        numbers,
        0,
        line.count as u32,
        line.speed,
        line.crossfall,
        line.start,
        line.distances[0],
    );
    for i in 0..line.count {
        let curve = line.curves[i];
        store_five(
            numbers,
            5 + 5 * i,
            side_bit(curve.left),
            curve.deflection,
            curve.radius,
            curve.spiral,
            line.distances[i + 1],
        );
    }
}

// The numbers of a line at the front of `numbers`. Answers how many there are, 5 + 5 × n, or refusal 3, over 64 curves, then 16; a refusal
// leaves `numbers` as they were. Any line and any numbers are taken; entries from n on are not read.
#[tactic(auto, using(crate::proofs::Storing::writing))]
pub fn write(line: Line, numbers: &mut [u32]) -> Result<usize, Refusal>
    ensures answer { fill_reply_of result ≡ (fill (few_check line) (line_numbers line) numbers.old).reply }
    ensures memory { numbers.new ≡ (fill (few_check line) (line_numbers line) numbers.old).buffer }
{
    must(line.count <= 64, Refusal::CurveCount)?;
    let count = 5 + 5 * line.count;
    must(count <= numbers.len(), Refusal::SmallBuffer)?;
    store_line(&line, numbers);
    Ok(count)
}
