// The line of points: refusals 8, then 20 and 19 point by point, then those of the calculator.
ghost use Rattle.std.specs.Prelude.{◌≡◌, ◌<◌, leb, ltb, pos, IfOk};
ghost use Rattle.std.specs.Int.Signed.{lt_z};
ghost use Rattle.refusals.specs.Outcomes.{outcome_of, need, ◌▹◌};
ghost use Rattle.refusals.specs.Order.{outcome};
ghost use Rattle.stationing.specs.Answer.{alignment_checks};
ghost use Rattle.coordinates.specs.Legs.{curve_count, cross_at, dot_at};
ghost use Rattle.coordinates.specs.FromPoints.{line_from, from_points_checks};
ghost use Rattle.points.specs.Steps.{seconds_of, Made, leg_checks};

use crate::checks::CheckedPoints;
use calculator::line_lengths;
use line::{Curve, Line, blank_line, check_distance};
use refusals::{Refusal, must};
use turns::turn;

// The turn at a PI: to the left or else to the right, and by how many seconds; 216,001 for every turn that 20 refuses.
#[derive(Clone, Copy)]
struct Bend {
    left: bool,
    seconds: u32,
}

// The turn of two legs, in seconds of arc; 216,001 for every turn over 216,000, and where the legs do not go on ahead.
#[tactic(auto, unfolding(crate::specs::Steps::seconds_of))]
fn seconds(across: i64, along: i64) -> u32
    ensures { result ≡ seconds_of across along }
{
    if along <= 0 {
        return 216001;
    }
    turn(across.unsigned_abs(), along.unsigned_abs())
}

// Side and turn at the PI of entry i.
fn bend_at(points: &CheckedPoints, i: usize) -> Bend
    requires { i < curve_count points.now.points.now }
    ensures left { result.left ≡ lt_z (pos 0) (cross_at points.now.points.now i) }
    ensures seconds { result.seconds ≡ seconds_of (cross_at points.now.points.now i) (dot_at points.now.points.now i) }
{
    let into = points.leg(i);
    let out = points.leg(i + 1);
    let across = into.cross(out);
    Bend {
        left: 0 < across,
        seconds: seconds(across, into.dot(out)),
    }
}

// Refusals 20 and 19 of a turn.
fn check_turn(turned: u32, place: u16) -> Result<(), Refusal>
    ensures { outcome_of result ≡ (need (leb turned 216000) 20 place ▹ need (ltb 0 turned) 19 place) }
{
    must(turned <= 216000, Refusal::WideTurn(place))?;
    must(0 < turned, Refusal::NoTurn(place))
}

// The line of points that pass 3 and 18, or the first refusal: 8 by ascending distance, 20 and 19 point by point, then the calculator's.
fn line_of_legs(
    points: &CheckedPoints,
    speed: u32,
    crossfall: u32,
    start: u32,
) -> Result<Line, Refusal>
    ensures { Made (leg_checks speed crossfall start points.now.points.now points.now.designs.now) (line_from speed crossfall start points.now.points.now points.now.designs.now) result }
{
    let n = points.curves();
    let mut line = blank_line();
    line.speed = speed;
    line.crossfall = crossfall;
    line.start = start;
    line.count = n;
    for i in 0..n + 1 {
        let mm = points.leg(i).distance();
        check_distance(mm, i as u16)?;
        line.distances[i] = mm;
    }
    for k in 0..n {
        let bend = bend_at(points, k);
        check_turn(bend.seconds, (k + 1) as u16)?;
        line.curves[k] = Curve {
            left: bend.left,
            deflection: bend.seconds,
            radius: points.designs[2 * k],
            spiral: points.designs[2 * k + 1],
        };
    }
    line_lengths(line)?;
    Ok(line)
}

// The line of n + 2 points, whose coordinates stand in `points`, east and north of each in turn, in whole mm; `curves` has the radius and
// the spiral of each PI in turn, in mm. A distance is the root of the summed squares, rounded down; the deflection is the largest whole
// number of seconds, 0 to 216,000, that the legs reach by document 01's sine and cosine (document 02, N2); the side is left where the cross
// product is above zero. Unused entries are zero. Or the first refusal: 3 (other than two numbers for each point and for each PI, or other
// than 2 to 66 points), 18 (a coordinate beyond 10,000,000 mm either way), 8 by ascending distance, 20 and 19 point by point, then the
// calculator's 3 to 15. Any numbers are taken.
#[tactic(auto, unfolding(coordinates::specs::FromPoints::from_points_checks))]
pub fn line_from_points(
    points: &[i64],
    curves: &[u32],
    speed: u32,
    crossfall: u32,
    start: u32,
) -> Result<Line, Refusal>
    ensures answer { outcome_of result ≡ outcome (from_points_checks speed crossfall start points.now curves.now) }
    ensures line { IfOk result (λ line. line ≡ line_from speed crossfall start points.now curves.now) }
{
    let checked = CheckedPoints::check(points, curves)?;
    line_of_legs(&checked, speed, crossfall, start)
}
