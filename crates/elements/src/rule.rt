// Document 01's working rule for one curve on machine numbers: angles and ratios at scale 10⁹, lengths in mm, elements in µm.
ghost use Rattle.std.specs.Prelude.{◌≡◌, ◌*◌, ◌/◌, ◌%◌, ◌<◌, ◌≤◌, pos, IfOk};
ghost use Rattle.refusals.specs.Outcomes.{outcome_of};
ghost use Rattle.refusals.specs.Order.{outcome};
ghost use Rattle.refusals.specs.Replying.{reply};
ghost use Rattle.line.specs.Checks.{curve_checks};
ghost use Rattle.line.specs.Ranges.{CurveInRange};
ghost use Rattle.elements.specs.WorkingRule.{scale, rounded, scaled_length, full_angle, half_angle, spiral_angle, arc_of, tan_of};
ghost use Rattle.elements.specs.Answer.{values_of, reply_of, values_by, arc_check, element_reply};
ghost use Rattle.elements.specs.SpiralElements.{OffsetOf, SpiralsOf};

use crate::series::Angle;
use crate::unit_spiral::SpiralAngle;
use crate::{Elements, SCALE};
use line::check_curve;
use refusals::{Refusal, must};

// A curve that passes refusals 9 to 11: its deflection in seconds of arc, its radius and its spiral in mm.
#[derive(Clone, Copy)]
pub(crate) struct CheckedCurve {
    deflection: u64,
    pub(crate) radius: u64,
    pub(crate) spiral: u64,
    ghost in_range: { CurveInRange deflection radius spiral },
}

// A coordinate of the spiral's end, and what is left of it without the radius's part.
#[derive(Clone, Copy)]
struct Offset {
    end: u64,
    rest: u64,
}

// What the radius and the spiral give alone: X, Y, k and p.
#[derive(Clone, Copy)]
struct Spirals {
    x: u64,
    y: u64,
    centre: u64,
    shift: u64,
}

// The rounding of the last division of an element or an offset: to the nearest, halves up. The divisor is even.
#[tactic(auto, using(crate::proofs::Rounding::half_added))]
pub(crate) fn round(product: u64, divisor: u64) -> u64
    requires { (product ≤ 18446744065119617025) × (0 < divisor) × (divisor ≤ scale) × (divisor % 2 ≡ 0) }
    ensures { pos result ≡ rounded (pos product) divisor }
{
    (product + divisor / 2) / divisor
}

// A length in mm times a ratio, in µm.
fn micrometres(mm: u64, ratio: u64) -> u64
    requires { (mm ≤ 4294967295) × (ratio ≤ 4294967295) }
    ensures { pos result ≡ rounded (pos (mm * ratio)) 1000000 }
{
    round(mm * ratio, 1000000)
}

// A length in mm times a ratio at scale 10⁹, in µm, rounded as the last division of X and Y. Any numbers are taken.
pub fn scaled_length(length: u32, ratio: u32) -> u64
    ensures { pos result ≡ scaled_length length (pos ratio) }
{
    micrometres(u64::from(length), u64::from(ratio))
}

// The full angle of a deflection or a turn, in seconds of arc.
#[tactic(auto, unfolding(crate::specs::WorkingRule::full_angle))]
pub(crate) fn full_angle(seconds: u64) -> u64
    requires { seconds ≤ 432000 }
    ensures { (result ≡ full_angle seconds) × (result ≤ 2094395102) }
{
    seconds * 3141592654 / 648000
}

// X and k, or Y and p: the spiral length times a ratio, and that less the radius times its part.
#[tactic(auto, using(crate::proofs::Rounding::rounded_keeps_order, numbers::proofs::Differences::minus_le))]
fn offset_of(spiral: u64, ratio: u64, radius: u64, part: u64) -> Offset
    requires spiral_bound { (spiral ≤ 500000) × (ratio ≤ 1000000000) × (radius ≤ 5000000) × (part ≤ 1000000000) }
    requires part_bound { radius * part ≤ spiral * ratio }
    ensures { OffsetOf spiral ratio radius part result }
{
    let end = micrometres(spiral, ratio);
    let taken = micrometres(radius, part);
    Offset {
        end,
        rest: end - taken,
    }
}

impl CheckedCurve {
    // The curve, or the first of refusals 9 to 11, with place 0.
    #[tactic(auto, using(line::proofs::InRange::curve_in_range))]
    pub(crate) fn check(deflection: u32, radius: u32, spiral: u32) -> Result<CheckedCurve, Refusal>
        ensures answer { outcome_of result ≡ outcome (curve_checks deflection radius spiral 0) }
        ensures fields { IfOk result (λ c. (c.deflection ≡ deflection) × (c.radius ≡ radius) × (c.spiral ≡ spiral)) }
    {
        check_curve(deflection, radius, spiral, 0)?;
        Ok(CheckedCurve {
            deflection: u64::from(deflection),
            radius: u64::from(radius),
            spiral: u64::from(spiral),
        })
    }

    // Half of the deflection's full angle.
    #[tactic(auto, unfolding(crate::specs::WorkingRule::full_angle, crate::specs::WorkingRule::half_angle))]
    fn half_angle(self) -> Angle
        ensures { result.value ≡ half_angle self.deflection }
    {
        Angle {
            value: full_angle(self.deflection) / 2,
        }
    }

    // The tangent of half the deflection.
    fn tan_half(self) -> u64
        ensures { (pos result ≡ tan_of self.deflection) × (result ≤ 2318405749) }
    {
        let half = self.half_angle();
        half.sine() * SCALE / half.cosine()
    }

    // The angle t of the whole spiral.
    #[tactic(auto, unfolding(crate::specs::WorkingRule::spiral_angle))]
    pub(crate) fn spiral_angle(self) -> SpiralAngle
        ensures { result.value ≡ spiral_angle self.radius self.spiral }
    {
        SpiralAngle {
            value: self.spiral * 500000000 / self.radius,
        }
    }

    // X, Y, k and p.
    fn spirals(self) -> Spirals
        ensures { SpiralsOf self.radius self.spiral result }
    {
        let t = self.spiral_angle();
        let angle = Angle { value: t.value };
        let along = offset_of(self.spiral, t.unit_x(), self.radius, angle.sine());
        let across = offset_of(self.spiral, t.unit_y(), self.radius, SCALE - angle.cosine());
        Spirals {
            x: along.end,
            y: across.end,
            centre: along.rest,
            shift: across.rest,
        }
    }

    // The elements of a curve whose arc is known.
    fn with_arc(self, arc: u64) -> Elements
        requires { pos arc ≡ arc_of self.deflection self.radius self.spiral }
        ensures { values_of result ≡ values_by self.deflection self.radius self.spiral }
    {
        let s = self.spirals();
        let beyond = round((1000 * self.radius + s.shift) * self.tan_half(), SCALE);
        Elements {
            x: s.x,
            y: s.y,
            centre: s.centre,
            shift: s.shift,
            arc,
            tangent: s.centre + beyond,
        }
    }

    // The elements, or refusal 14.
    #[tactic(auto, unfolding(crate::specs::Answer::arc_check, refusals::specs::Replying::reply), using(crate::proofs::Arc::arc_reaches, crate::proofs::Arc::computed_d))]
    fn elements(self) -> Result<Elements, Refusal>
        ensures { reply_of result ≡ reply (arc_check self.deflection self.radius self.spiral 0) (values_by self.deflection self.radius self.spiral) }
    {
        let turn = micrometres(self.radius, full_angle(self.deflection));
        let spirals = 1000 * self.spiral;
        must(spirals + 1000 <= turn, Refusal::ShortArc(0))?;
        Ok(self.with_arc(turn - spirals))
    }
}

// The elements X, Y, k, p, D and TT of one curve by document 01's working rule (after source document 002, with one term more of the
// spiral and rounded to the nearest, as document 02 has it), in µm: from the deflection in seconds of arc, and the radius and the
// spiral length in mm. Any values are taken: the first of refusals 9, 10, 11 and 14 that applies is answered, with place 0.
#[tactic(auto, unfolding(crate::specs::Answer::element_reply, crate::specs::Answer::element_checks, refusals::specs::Replying::reply))]
pub fn curve_elements(deflection: u32, radius: u32, spiral: u32) -> Result<Elements, Refusal>
    ensures { reply_of result ≡ element_reply deflection radius spiral }
{
    CheckedCurve::check(deflection, radius, spiral)?.elements()
}
