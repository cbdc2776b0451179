// From the line's start over its elements, in order, to the one under a station.
ghost use Rattle.std.specs.Prelude.{◌≡◌, ◌*◌, ◌+◌, ◌<◌, ◌≤◌, pos};
ghost use Rattle.refusals.specs.Replying.{answered, reply};
ghost use Rattle.line.specs.Ranges.{CurveInRange};
ghost use Rattle.pegs.specs.Pegs.{sided, along_line, station_check, peg_by, values_of, peg_reply_of, peg_reply};
ghost use Rattle.pegs.specs.Steps.{plain_peg, spiral_peg, peg_in_curve};

use crate::Peg;
use calculator::{MeasuredLine, line_lengths};
use elements::spiral_point;
use line::{Curve, Line};
use refusals::{Refusal, must};
use stationing::ElementKind;

// y to the side of a curve.
fn to_side(left: bool, y: u64) -> i64
    requires { y ≤ 83333333 }
    ensures { result ≡ sided left (pos y) }
{
    let right = y as i64;
    if left { -right } else { right }
}

// The peg on a straight or an arc.
fn plain_peg(kind: ElementKind, number: u16, length: u64) -> Peg
    ensures { values_of result ≡ plain_peg kind number length }
{
    Peg {
        kind,
        number,
        length,
        x: 0,
        y: 0,
    }
}

// The peg on a spiral.
fn spiral_peg(kind: ElementKind, number: u16, curve: Curve, length: u64) -> Result<Peg, Refusal>
    requires { CurveInRange curve.deflection curve.radius curve.spiral × (length ≤ 1000 * curve.spiral) }
    ensures { peg_reply_of result ≡ answered (spiral_peg kind number curve length) }
{
    let point = spiral_point(curve.radius, curve.spiral, length)?;
    Ok(Peg {
        kind,
        number,
        length,
        x: point.x,
        y: to_side(curve.left, point.y),
    })
}

// The peg in a curve, at a length from its TS.
#[tactic(auto, unfolding(crate::specs::Steps::peg_in_curve))]
fn peg_in_curve(number: u16, curve: Curve, arc: u64, inside: u64) -> Result<Peg, Refusal>
    requires curve_in_range { CurveInRange curve.deflection curve.radius curve.spiral × (arc ≤ 10471975510) }
    requires inside_bound { inside < 2000 * curve.spiral + arc }
    ensures { peg_reply_of result ≡ answered (peg_in_curve number curve arc inside) }
{
    let spiral = 1000 * u64::from(curve.spiral);
    if inside < spiral {
        spiral_peg(ElementKind::SpiralIn, number, curve, inside)
    } else if inside < spiral + arc {
        Ok(plain_peg(ElementKind::Arc, number, inside - spiral))
    } else {
        let back = spiral + arc + spiral - inside;
        spiral_peg(ElementKind::SpiralOut, number, curve, back)
    }
}

// The peg at a length from the start of a line, or refusal 17 beyond its end.
#[tactic(auto, using(stationing::proofs::Accepted::few))]
fn peg_along(measured: MeasuredLine, along: u64) -> Result<Peg, Refusal>
    ensures { peg_reply_of result ≡ reply (station_check measured.entry.line.now (pos along)) (peg_by measured.entry.line.now (pos along)) }
{
    let n = measured.line.count;
    let mut rest = along;
    for i in 0..n {
        let straight = measured.lengths.straights[i];
        if rest < straight {
            return Ok(plain_peg(ElementKind::Straight, i as u16, rest));
        }
        let curve = measured.line.curves[i];
        let arc = measured.lengths.arcs[i];
        let inside = rest - straight;
        let whole = 2000 * u64::from(curve.spiral) + arc;
        if inside < whole {
            return peg_in_curve((i + 1) as u16, curve, arc, inside);
        }
        rest = inside - whole;
    }
    if measured.lengths.straights[n] < rest {
        return Err(Refusal::Station);
    }
    Ok(plain_peg(ElementKind::Straight, n as u16, rest))
}

// The peg at a station of a line, or refusal 17.
#[tactic(auto, unfolding(crate::specs::Pegs::station_check, crate::specs::Pegs::along_line, refusals::specs::Replying::reply), using(numbers::proofs::Differences::minus_le, numbers::proofs::Differences::minus_lt))]
fn peg_from_start(measured: MeasuredLine, station: u64) -> Result<Peg, Refusal>
    ensures { peg_reply_of result ≡ reply (station_check measured.entry.line.now (along_line measured.entry.line.now station)) (peg_by measured.entry.line.now (along_line measured.entry.line.now station)) }
{
    let start = 1000 * u64::from(measured.line.start);
    must(start <= station, Refusal::Station)?;
    peg_along(measured, station - start)
}

// The element under a station in µm, with the length from its beginning (on the spiral out back from ST) and on a spiral the offsets, each
// within 4 µm of the exact one (document 02, N1). A station that two elements share belongs to the one that begins there, the end to the last
// straight. Or the first refusal: the calculator's 3 to 15 in its order, then 17 for a station outside the line. Any line and any station are
// taken; unused entries change nothing, and the sides of the curves the sign of y alone.
#[tactic(auto, unfolding(crate::specs::Pegs::peg_reply, crate::specs::Pegs::peg_checks, refusals::specs::Replying::reply))]
pub fn peg_at(line: Line, station: u64) -> Result<Peg, Refusal>
    ensures answer { peg_reply_of result ≡ peg_reply line station }
{
    let lengths = line_lengths(line)?;
    let measured = MeasuredLine {
        line: &line,
        lengths: &lengths,
    };
    peg_from_start(measured, station)
}
