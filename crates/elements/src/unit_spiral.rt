// The spiral of length one by document 01's working rule: angles and ratios are whole numbers at scale 10⁹.
ghost use Rattle.std.specs.Prelude.{◌≡◌, ◌*◌, ◌/◌, ◌≤◌, pos};
ghost use Rattle.elements.specs.WorkingRule.{scale, unit_x, unit_y};

use crate::SCALE;

// An angle of half a radian or less, as those of spirals are.
#[derive(Clone, Copy)]
pub(crate) struct SpiralAngle {
    pub(crate) value: u64,
    ghost most: { value ≤ 500000000 },
}

impl SpiralAngle {
    // The product of two angles, which is half of the second at the most.
    fn times(self, other: SpiralAngle) -> SpiralAngle
        ensures { (result.value ≡ self.value * other.value / scale) × (2 * result.value ≤ other.value) }
    {
        SpiralAngle {
            value: self.value * other.value / SCALE,
        }
    }

    // x of the spiral of length one.
    #[tactic(auto, using(crate::proofs::UnitSpiral::computed_x, crate::proofs::UnitSpiral::unit_x_between, numbers::proofs::Ranges::at_most))]
    pub(crate) fn unit_x(self) -> u64
        ensures { (pos result ≡ unit_x self.value) × (result ≤ 1000000000) }
    {
        let t2 = self.times(self);
        let t4 = t2.times(t2);
        let t6 = t4.times(t2);
        SCALE - t2.value / 10 + t4.value / 216 - t6.value / 9360
    }

    // y of the spiral of length one.
    #[tactic(auto, using(crate::proofs::UnitSpiral::computed_y, crate::proofs::UnitSpiral::unit_y_between, numbers::proofs::Ranges::at_most))]
    pub(crate) fn unit_y(self) -> u64
        ensures { (pos result ≡ unit_y self.value) × (result ≤ 166666666) }
    {
        let t2 = self.times(self);
        let t3 = t2.times(self);
        let t4 = t2.times(t2);
        let t5 = t4.times(self);
        self.value / 3 - t3.value / 42 + t5.value / 1320
    }
}
