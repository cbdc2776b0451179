// Document 01's road tables, by design speed, and the checks of a curve against them: refusals 12 and 13.
ghost use Rattle.std.specs.Prelude.{◌≡◌, ◌%◌, ◌≤◌};
ghost use Rattle.std.specs.List.{All};
ghost use Rattle.refusals.specs.Outcomes.{outcome_of, need, ◌▹◌};
ghost use Rattle.line.specs.Speeds.{speeds, under_speed};
ghost use Rattle.stationing.specs.RoadTables.{radius_serves, spiral_serves};

use line::Curve;
use refusals::{Refusal, must};

// Side friction, in hundredths, at 40, 50, .. 120 km/h.
const FRICTION: [u64; 9] = [18, 16, 15, 15, 14, 14, 13, 12, 11];

// The least length of a spiral, in m, at the same speeds.
const LEAST_SPIRAL: [u64; 9] = [30, 30, 30, 40, 40, 50, 60, 60, 70];

// A design speed.
#[derive(Clone, Copy)]
pub(crate) struct DesignSpeed {
    pub(crate) km_h: u32,
    ghost tabled: { (40 ≤ km_h) × (km_h ≤ 120) × (km_h % 10 ≡ 0) },
}

impl DesignSpeed {
    // The entry of a table under the speed.
    fn entry(self, table: &[u64; 9]) -> u64
        requires { All (λ x. x ≤ 100) table.now }
        ensures { (result ≡ under_speed self.km_h speeds table.now) × (result ≤ 100) }
    {
        table[((self.km_h - 40) / 10) as usize]
    }

    // Whether a radius reaches V² / (127 (e + f)) in m (source document 001), with e and f in hundredths and R in mm.
    #[tactic(auto, unfolding(stationing::specs::RoadTables::radius_serves, stationing::specs::RoadTables::friction_at))]
    fn radius_serves(self, crossfall: u32, radius: u32) -> bool
        requires { crossfall ≤ 12 }
        ensures { result ≡ radius_serves self.km_h crossfall radius }
    {
        let v = u64::from(self.km_h);
        100000 * (v * v) <= 127 * (u64::from(crossfall) + self.entry(&FRICTION)) * u64::from(radius)
    }

    // Whether a spiral is none, or has the table's length in m and 0.036 V³ / R in m (source document 002), with L and R in mm.
    #[tactic(auto, unfolding(stationing::specs::RoadTables::spiral_serves, stationing::specs::RoadTables::least_spiral_at))]
    fn spiral_serves(self, radius: u32, spiral: u32) -> bool
        ensures { result ≡ spiral_serves self.km_h radius spiral }
    {
        let v = u64::from(self.km_h);
        let length = u64::from(spiral);
        length == 0
            || 1000 * self.entry(&LEAST_SPIRAL) <= length
                && 36000 * (v * v * v) <= length * u64::from(radius)
    }

    // Refusals 12 and 13 of a curve.
    pub(crate) fn check_least(self, crossfall: u32, curve: Curve, place: u16) -> Result<(), Refusal>
        requires { crossfall ≤ 12 }
        ensures { outcome_of result ≡ (need (radius_serves self.km_h crossfall curve.radius) 12 place ▹ need (spiral_serves self.km_h curve.radius curve.spiral) 13 place) }
    {
        must(
            self.radius_serves(crossfall, curve.radius),
            Refusal::LeastRadius(place),
        )?;
        must(
            self.spiral_serves(curve.radius, curve.spiral),
            Refusal::LeastSpiral(place),
        )
    }
}
