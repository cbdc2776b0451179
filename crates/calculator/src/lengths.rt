// The lengths of a line's straights and arcs, in µm, with the calculator's checks 3 to 15.
ghost use Rattle.std.specs.Prelude.{◌≡◌, suc, IfOk};
ghost use Rattle.refusals.specs.Outcomes.{outcome_of};
ghost use Rattle.refusals.specs.Order.{in_turn, outcome};
ghost use Rattle.line.specs.Ranges.{LineInRange};
ghost use Rattle.stationing.specs.Answer.{design_checks_at, straight_check, alignment_checks};
ghost use Rattle.calculator.specs.Lengths.{lengths_of, lengths_by, CurvesOf};

use crate::LineLengths;
use crate::tables::DesignSpeed;
use elements::curve_elements;
use line::{Line, check_line};
use refusals::{Refusal, must};

// The tangents and the arcs of a line's curves, each in an array of its own, since `LineLengths` takes the arcs whole.
#[derive(Clone, Copy)]
struct CurveLengths {
    // One entry more than there can be curves: no tangent follows the last distance.
    tangents: [u64; 65],
    arcs: [u64; 64],
}

// Refusals 12, 13 and 14, curve by curve, and the lengths of each curve, whose elements are computed once.
fn curve_lengths(line: Line) -> Result<CurveLengths, Refusal>
    requires { LineInRange line }
    ensures answer { outcome_of result ≡ outcome (in_turn (design_checks_at line) line.count) }
    ensures curves { IfOk result (CurvesOf line) }
{
    let speed = DesignSpeed { km_h: line.speed };
    let mut lengths = CurveLengths {
        tangents: [0; 65],
        arcs: [0; 64],
    };
    for i in 0..line.count {
        let curve = line.curves[i];
        let place = (i + 1) as u16;
        speed.check_least(line.crossfall, curve, place)?;
        let Ok(e) = curve_elements(curve.deflection, curve.radius, curve.spiral) else {
            return Err(Refusal::ShortArc(place));
        };
        lengths.tangents[i] = e.tangent;
        lengths.arcs[i] = e.arc;
    }
    Ok(lengths)
}

// Refusal 15, by ascending distance, and the straights: each distance less the tangents of the curves at its ends.
fn with_straights(line: Line, curves: CurveLengths) -> Result<LineLengths, Refusal>
    requires line_in_range { LineInRange line }
    requires curves_of { CurvesOf line curves }
    ensures answer { outcome_of result ≡ outcome (in_turn (straight_check line) (suc line.count)) }
    ensures lengths { IfOk result (λ l. lengths_of l ≡ lengths_by line) }
{
    let mut lengths = LineLengths {
        straights: [0; 65],
        arcs: curves.arcs,
    };
    let mut before = 0;
    for i in 0..line.count + 1 {
        let after = curves.tangents[i];
        let distance = 1000 * u64::from(line.distances[i]);
        let ends = before + after;
        must(ends + 1000 <= distance, Refusal::ShortStraight(i as u16))?;
        lengths.straights[i] = distance - ends;
        before = after;
    }
    Ok(lengths)
}

// The lengths of a line's straights and arcs by document 01's working rule, in µm, or the calculator's first refusal in the order 3 to 6,
// 8 to 11, then 12, 13, 14 curve by curve, then 15 by ascending distance. In unused entries the lengths are 0. Any line is taken; unused
// entries and the sides of the curves change nothing.
#[tactic(auto, unfolding(stationing::specs::Answer::alignment_checks), using(line::proofs::InRange::line_in_range))]
pub fn line_lengths(line: Line) -> Result<LineLengths, Refusal>
    ensures verdict { outcome_of result ≡ outcome (alignment_checks line) }
    ensures lengths { IfOk result (λ l. lengths_of l ≡ lengths_by line) }
{
    check_line(line)?;
    let curves = curve_lengths(line)?;
    with_straights(line, curves)
}
