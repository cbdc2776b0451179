// The profile of numbers.
ghost use Rattle.std.specs.Prelude.{◌≡◌, ◌+◌, ◌*◌, ◌≤◌, length, IfOk};
ghost use Rattle.refusals.specs.Outcomes.{outcome_of};
ghost use Rattle.refusals.specs.Order.{outcome};
ghost use Rattle.profile_numbers.specs.Numbers.{vertex_count, unsigned, profile_of, size_checks};

use profile::{Profile, Vertex};
use refusals::{Refusal, must};

// A number for a field that has none below zero: such a one becomes the greatest of the type, which the check of its range refuses.
#[tactic(auto, unfolding(crate::specs::Numbers::unsigned))]
fn field_of(number: i64) -> u64
    ensures { result ≡ unsigned number }
{
    u64::try_from(number).unwrap_or(u64::MAX)
}

// Refusal 3: other than the 4 + 3 × n numbers of n vertices, up to 32.
#[tactic(auto, unfolding(crate::specs::Numbers::size_checks, crate::specs::Numbers::count_check))]
fn check_size(numbers: &[i64]) -> Result<(), Refusal>
    ensures answer { outcome_of result ≡ outcome (size_checks numbers.now) }
    ensures whole { IfOk result (λ _. length numbers.now ≡ 4 + 3 * vertex_count numbers.now) }
    ensures few { IfOk result (λ _. vertex_count numbers.now ≤ 32) }
{
    let size = numbers.len();
    must(
        (4..=100).contains(&size) && size % 3 == 1,
        Refusal::CurveCount,
    )
}

// The profile of numbers, its unused entries zero, or refusal 3.
pub(crate) fn read(numbers: &[i64]) -> Result<Profile, Refusal>
    ensures answer { outcome_of result ≡ outcome (size_checks numbers.now) }
    ensures profile { IfOk result (λ profile. profile ≡ profile_of numbers.now) }
{
    check_size(numbers)?;
    let count = (numbers.len() - 4) / 3;
    let mut vertices = [Vertex {
        station: 0,
        grade: 0,
        length: 0,
    }; 32];
    for i in 0..count {
        let k = 4 + 3 * i;
        vertices[i] = Vertex {
            station: field_of(numbers[k]),
            grade: numbers[k + 1],
            length: field_of(numbers[k + 2]),
        };
    }
    Ok(Profile {
        speed: field_of(numbers[0]),
        start: field_of(numbers[1]),
        height: numbers[2],
        grade: numbers[3],
        count,
        vertices,
    })
}
