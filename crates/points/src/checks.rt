// Refusals 3 and 18: how many numbers there are, and their range; the legs of points that pass them.
ghost use Rattle.std.specs.Prelude.{◌≡◌, ◌+◌, ◌<◌, ◌≤◌, nat_abs, length, IfOk};
ghost use Rattle.refusals.specs.Outcomes.{outcome_of, ◌▹◌};
ghost use Rattle.refusals.specs.Order.{in_turn, outcome};
ghost use Rattle.coordinates.specs.Legs.{curve_count, step_at, leg_at};
ghost use Rattle.coordinates.specs.FromPoints.{count_checks, coordinate_check};
ghost use Rattle.points.specs.Steps.{Usable};

use crate::legs::ShortLeg;
use coordinates::Leg;
use refusals::{Refusal, must};

// The coordinates of points, and radius and spiral of each PI, that pass refusals 3 and 18; flat lists, as the C interface lends them.
#[derive(Clone, Copy)]
pub(crate) struct CheckedPoints<'a> {
    pub(crate) points: &'a [i64],
    pub(crate) designs: &'a [u32],
    ghost usable: { Usable points.now designs.now },
}

// Refusal 3: other than two numbers for each point and two for each PI, or other than 2 to 66 points.
#[tactic(auto, using(coordinates::proofs::Counts::counts_tested))]
fn check_counts(points: &[i64], designs: &[u32]) -> Result<(), Refusal>
    ensures { outcome_of result ≡ outcome (count_checks points.now designs.now) }
{
    let numbers = points.len();
    must(
        (4..=132).contains(&numbers) && numbers % 2 == 0 && designs.len() == numbers - 4,
        Refusal::CurveCount,
    )
}

// Refusal 18: a coordinate beyond 10,000,000 mm either way.
#[tactic(auto, unfolding(coordinates::specs::FromPoints::coordinate_check, refusals::specs::Outcomes::first_of))]
fn check_coordinates(points: &[i64]) -> Result<(), Refusal>
    ensures { outcome_of result ≡ outcome (in_turn (coordinate_check points.now) (length points.now)) }
{
    for coordinate in points {
        must(coordinate.unsigned_abs() <= 10000000, Refusal::Coordinate)?;
    }
    Ok(())
}

impl<'a> CheckedPoints<'a> {
    // The points, or the first of refusals 3 and 18.
    pub(crate) fn check(points: &'a [i64], designs: &'a [u32]) -> Result<CheckedPoints<'a>, Refusal>
        ensures answer { outcome_of result ≡ (outcome (count_checks points.now designs.now) ▹ outcome (in_turn (coordinate_check points.now) (length points.now))) }
        ensures fields { IfOk result (λ c. (c.points.now ≡ points.now) × (c.designs.now ≡ designs.now)) }
    {
        check_counts(points, designs)?;
        check_coordinates(points)?;
        Ok(CheckedPoints { points, designs })
    }

    // How many curves there are.
    pub(crate) fn curves(&self) -> usize
        ensures { result ≡ curve_count self.now.points.now }
    {
        self.points.len() / 2 - 2
    }

    // From coordinate k to the same one of the next point.
    fn step(&self, k: usize) -> i64
        requires { k + 2 < length self.now.points.now }
        ensures value { result ≡ step_at self.now.points.now k }
        ensures bound { nat_abs result ≤ 20000000 }
    {
        self.points[k + 2] - self.points[k]
    }

    // From point i to the next.
    pub(crate) fn leg(&self, i: usize) -> ShortLeg
        requires { i < curve_count self.now.points.now + 1 }
        ensures { result.leg ≡ leg_at self.now.points.now i }
    {
        ShortLeg {
            leg: Leg {
                east: self.step(2 * i),
                north: self.step(2 * i + 1),
            },
        }
    }
}
