// The sine and the cosine of a turn, with which document 02 (N2) finds the deflection of two legs.
ghost use Rattle.std.specs.Prelude.{◌≡◌, pos};
ghost use Rattle.elements.specs.WorkingRule.{sine_of, cosine_of};
ghost use Rattle.elements.specs.TurnAngle.{turn_angle};

use crate::TurnRatios;
use crate::rule::full_angle;
use crate::series::Angle;

// The greatest turn that is tried, in seconds of arc: 60° and a second.
const GREATEST_TURN: u32 = 216001;

// The full angle of a turn, of the greatest for one beyond it.
#[tactic(auto, unfolding(crate::specs::TurnAngle::turn_angle), using(crate::proofs::TurnAngles::turn_angle_most))]
fn turn_angle(seconds: u32) -> Angle
    ensures { result.value ≡ turn_angle seconds }
{
    Angle {
        value: full_angle(u64::from(seconds.min(GREATEST_TURN))),
    }
}

// The sine and the cosine, at scale 10⁹, of the full angle of a turn in seconds of arc, by document 01's working rule. Any turn is taken;
// one over 216,001 seconds counts as 216,001.
pub fn turn_ratios(seconds: u32) -> TurnRatios
    ensures { (pos result.sine ≡ sine_of (turn_angle seconds)) × (pos result.cosine ≡ cosine_of (turn_angle seconds)) }
{
    let angle = turn_angle(seconds);
    TurnRatios {
        sine: angle.sine() as u32,
        cosine: angle.cosine() as u32,
    }
}
