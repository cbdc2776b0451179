// The offsets of a point of a spiral (document 02, N1): radius and spiral in mm, the length from its outer end and the offsets in µm.
ghost use Rattle.std.specs.Prelude.{◌≡◌, ◌*◌, ◌<◌, ◌≤◌};
ghost use Rattle.refusals.specs.Replying.{reply};
ghost use Rattle.elements.specs.SpiralPoint.{part_to, angle_to, offsets_of, offsets_by, point_reply_of, inside_check, point_reply};

use crate::rule::{CheckedCurve, round};
use crate::unit_spiral::SpiralAngle;
use crate::{SCALE, SpiralPoint};
use refusals::{Refusal, must};

// A place on a spiral that is not empty, by its length from the outer end.
#[derive(Clone, Copy)]
struct Place {
    curve: CheckedCurve,
    length: u64,
    ghost on_spiral: { (0 < curve.spiral) × (length ≤ 1000 * curve.spiral) },
}

impl Place {
    // The part of the spiral up to the place.
    #[tactic(auto, unfolding(crate::specs::SpiralPoint::part_to), using(crate::proofs::SpiralPoints::part_most))]
    fn part(self) -> u64
        ensures { (result ≡ part_to self.curve.spiral self.length) × (result ≤ 1000000000) }
    {
        self.length * 1000000 / self.curve.spiral
    }

    // The spiral's angle at the place, which grows with the square of the length.
    #[tactic(auto, unfolding(crate::specs::SpiralPoint::angle_to), using(crate::proofs::SpiralPoints::angle_most))]
    fn angle(self) -> SpiralAngle
        ensures { result.value ≡ angle_to self.curve.radius self.curve.spiral self.length }
    {
        let u = self.part();
        SpiralAngle {
            value: u * u / SCALE * self.curve.spiral_angle().value / SCALE,
        }
    }

    // The offsets of the place.
    #[tactic(auto, unfolding(crate::specs::SpiralPoint::offsets_by, crate::specs::SpiralPoint::offset_x, crate::specs::SpiralPoint::offset_y))]
    fn point(self) -> SpiralPoint
        ensures { offsets_of result ≡ offsets_by self.curve.radius self.curve.spiral self.length }
    {
        let angle = self.angle();
        SpiralPoint {
            x: round(self.length * angle.unit_x(), SCALE),
            y: round(self.length * angle.unit_y(), SCALE),
        }
    }
}

// The point, or refusal 17; at the outer end both offsets are 0.
#[tactic(auto, unfolding(crate::specs::SpiralPoint::inside_check, refusals::specs::Replying::reply), using(crate::proofs::SpiralPoints::at_outer_end))]
fn point_or_outside(curve: CheckedCurve, length: u64) -> Result<SpiralPoint, Refusal>
    ensures { point_reply_of result ≡ reply (inside_check curve.spiral length) (offsets_by curve.radius curve.spiral length) }
{
    must(length <= 1000 * curve.spiral, Refusal::Station)?;
    if length == 0 {
        return Ok(SpiralPoint { x: 0, y: 0 });
    }
    Ok(Place { curve, length }.point())
}

// The offsets x and y of a point of a spiral, in µm, along the tangent at its outer end (TS or ST) and square to it, by the working rule's
// unit spiral at the angle of the point; each is within 4 µm of the exact one. Radius and spiral are in mm, the length from the outer
// end in µm. Any values are taken: the first of refusals 10, 11 and 17, for a length beyond the spiral, is answered, with place 0.
#[tactic(auto, unfolding(crate::specs::SpiralPoint::point_reply, crate::specs::SpiralPoint::point_checks, refusals::specs::Replying::reply))]
pub fn spiral_point(radius: u32, spiral: u32, length: u64) -> Result<SpiralPoint, Refusal>
    ensures { point_reply_of result ≡ point_reply radius spiral length }
{
    point_or_outside(CheckedCurve::check(1, radius, spiral)?, length)
}
