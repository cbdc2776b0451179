// The line of numbers.
ghost use Rattle.std.specs.Prelude.{◌≡◌, ◌+◌, ◌*◌, ◌<◌, ◌≤◌, length};
ghost use Rattle.refusals.specs.Outcomes.{outcome_of};
ghost use Rattle.refusals.specs.Order.{outcome};
ghost use Rattle.line.specs.Entries.{blank_line, line_after};
ghost use Rattle.line_numbers.specs.Numbers.{number_count, number_at, turn_of, curve_of, line_of, count_check};

use line::{Curve, Line, blank_line};
use refusals::{Refusal, must};

// Refusal 3: over 64 curves, or other than the 5 + 5 × n numbers of n curves, so that a line cut short is never taken for a whole one.
#[tactic(auto, unfolding(crate::specs::Numbers::count_check))]
pub fn check_count(numbers: &[u32]) -> Result<(), Refusal>
    ensures { outcome_of result ≡ outcome (count_check numbers.now) }
{
    must(
        !numbers.is_empty() && numbers[0] <= 64 && numbers.len() == 5 + 5 * numbers[0] as usize,
        Refusal::CurveCount,
    )
}

// The deflection of a curve; 0, which is out of its range, where the side is neither 0 nor 1: the C interface gives the side as a number, and
// refusal 9 is that of the line.
#[tactic(auto, unfolding(crate::specs::Numbers::turn_of))]
fn turn_of(side: u32, deflection: u32) -> u32
    ensures { result ≡ turn_of side deflection }
{
    if side <= 1 { deflection } else { 0 }
}

// The curve of an entry.
#[tactic(auto, unfolding(crate::specs::Numbers::curve_of))]
fn curve_of(numbers: &[u32], entry: usize) -> Curve
    requires { (entry < 64) × (10 + 5 * entry ≤ length numbers.now) }
    ensures { result ≡ curve_of numbers.now entry }
{
    let before = 5 * entry;
    let side = numbers[5 + before];
    Curve {
        left: side == 1,
        deflection: turn_of(side, numbers[6 + before]),
        radius: numbers[7 + before],
        spiral: numbers[8 + before],
    }
}

// A blank line becomes the line of numbers that are those of at most 64 curves.
#[tactic(auto, using(crate::proofs::Filling::filling))]
fn fill_line(line: &mut Line, numbers: &[u32])
    requires blank { line.old ≡ blank_line }
    requires few { number_at numbers.now 0 ≤ 64 }
    requires all { length numbers.now ≡ number_count (number_at numbers.now 0) }
    ensures { line.new ≡ line_of numbers.now }
{
    line.speed = numbers[1];
    line.crossfall = numbers[2];
    line.start = numbers[3];
    line.count = numbers[0] as usize;
    line.distances[0] = numbers[4];
    // By index: entry i of two arrays comes from five numbers.
    for i in 0..line.count {
        line.curves[i] = curve_of(numbers, i);
        line.distances[i + 1] = numbers[9 + 5 * i];
    }
}

// The line of numbers, its unused entries zero; after refusal 3 a line whose fields are all zero. A curve whose side is neither 0 nor 1 has
// no deflection, which 9 refuses. Any numbers are taken; their ranges are checked by whoever takes the line. (No
// `Result`: the contract promises a line of any numbers.)
#[tactic(auto, using(crate::proofs::LineAndNumbers::few_counted, crate::proofs::LineAndNumbers::all_counted))]
pub fn read(numbers: &[u32]) -> Line
    ensures { result ≡ line_after (outcome (count_check numbers.now)) (line_of numbers.now) }
{
    let mut line = blank_line();
    if check_count(numbers).is_ok() {
        fill_line(&mut line, numbers);
    }
    line
}
