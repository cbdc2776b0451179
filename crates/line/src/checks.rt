// The checks of a line's fields: refusals 3 to 6, then 8 to 11 in sheet order.
ghost use Rattle.std.specs.Prelude.{◌≡◌, ◌≤◌};
ghost use Rattle.refusals.specs.Outcomes.{outcome_of, ◌▹◌};
ghost use Rattle.refusals.specs.Order.{outcome};
ghost use Rattle.line.specs.Checks.{speed_check, start_check, head_checks, distance_check, curve_checks, body_checks, field_checks, line_checks};

use crate::{Curve, Line};
use refusals::{Refusal, first, must};

// Refusal 4: a design speed, in km/h.
pub fn check_speed(speed: u64) -> Result<(), Refusal>
    ensures { outcome_of result ≡ outcome (speed_check speed) }
{
    must(
        (40..=120).contains(&speed) && speed % 10 == 0,
        Refusal::Speed,
    )
}

// Refusal 6: the start station, in mm, up to the greatest.
#[tactic(auto, unfolding(crate::specs::Checks::start_check))]
fn check_start(greatest: u32, start: u32) -> Result<(), Refusal>
    ensures { outcome_of result ≡ outcome (start_check greatest start) }
{
    must(start <= greatest, Refusal::Start)
}

// The first of refusals 3 to 6: the number of curves, the design speed in km/h, the crossfall in
// percent and the start station in mm, up to the greatest.
#[tactic(auto, unfolding(crate::specs::Checks::head_checks))]
pub fn check_head(
    greatest: u32,
    count: usize,
    speed: u32,
    crossfall: u32,
    start: u32,
) -> Result<(), Refusal>
    ensures { outcome_of result ≡ outcome (head_checks greatest count speed crossfall start) }
{
    must(count <= 64, Refusal::CurveCount)?;
    check_speed(u64::from(speed))?;
    must((2..=12).contains(&crossfall), Refusal::Crossfall)?;
    check_start(greatest, start)
}

// Refusal 8: the distance of an index, in mm.
#[tactic(auto, unfolding(crate::specs::Checks::distance_check))]
pub fn check_distance(distance: u32, index: u16) -> Result<(), Refusal>
    ensures { outcome_of result ≡ outcome (distance_check distance index) }
{
    must((1..=20000000).contains(&distance), Refusal::Distance(index))
}

// The first of refusals 9 to 11: a curve's deflection in seconds of arc, its radius and its spiral
// in mm. `place` is the curve's number, or 0 for a curve of no line.
#[tactic(auto, unfolding(crate::specs::Checks::curve_checks))]
pub fn check_curve(deflection: u32, radius: u32, spiral: u32, place: u16) -> Result<(), Refusal>
    ensures { outcome_of result ≡ outcome (curve_checks deflection radius spiral place) }
{
    must(
        (1..=432000).contains(&deflection),
        Refusal::Deflection(place),
    )?;
    must((20000..=5000000).contains(&radius), Refusal::Radius(place))?;
    must(spiral <= 500000 && spiral <= radius, Refusal::Spiral(place))
}

// A curve and the distance after it, which have the same place.
fn check_entry(curve: Curve, distance: u32, place: u16) -> Result<(), Refusal>
    ensures { outcome_of result ≡ (outcome (curve_checks curve.deflection curve.radius curve.spiral place) ▹ outcome (distance_check distance place)) }
{
    let fields = check_curve(curve.deflection, curve.radius, curve.spiral, place);
    first(fields, check_distance(distance, place))
}

// The first of refusals 8 to 11, in sheet order: distance 0, curve 1, distance 1, ..
#[tactic(auto, unfolding(crate::specs::Checks::body_checks))]
fn check_body(line: Line) -> Result<(), Refusal>
    requires { line.count ≤ 64 }
    ensures { outcome_of result ≡ outcome (body_checks line line.count) }
{
    check_distance(line.distances[0], 0)?;
    for i in 0..line.count {
        check_entry(line.curves[i], line.distances[i + 1], (i + 1) as u16)?;
    }
    Ok(())
}

// The first refusal of a line's fields, its start up to `greatest` mm: 3 to 6, then 8 to 11 in sheet order. Unused entries are ignored.
#[tactic(auto, unfolding(crate::specs::Checks::field_checks))]
pub fn check_fields(greatest: u32, line: Line) -> Result<(), Refusal>
    ensures { outcome_of result ≡ outcome (field_checks greatest line) }
{
    check_head(greatest, line.count, line.speed, line.crossfall, line.start)?;
    check_body(line)
}

// The same of a line that is worked on, of whatever sheet or none.
pub fn check_line(line: Line) -> Result<(), Refusal>
    ensures { outcome_of result ≡ outcome (line_checks line) }
{
    check_fields(4000000000, line)
}
