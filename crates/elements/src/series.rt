// Sine and cosine of document 01's working rule: an angle and its ratio are whole numbers at scale 10⁹.
ghost use Rattle.std.specs.Prelude.{◌≡◌, ◌-◌, ◌*◌, ◌/◌, ◌≤◌, pos, slice_index};
ghost use Rattle.std.specs.List.{All};
ghost use Rattle.elements.specs.WorkingRule.{scale, term, alternating, sine_of, cosine_of};

use crate::SCALE;

// An angle of 60° and a second or less. (A type beside `SpiralAngle`: each bound keeps its own series in 64 bits.)
#[derive(Clone, Copy)]
pub(crate) struct Angle {
    pub(crate) value: u64,
    ghost most: { value ≤ 1047202399 },
}

impl Angle {
    // The square of the angle.
    fn square(self) -> u64
        ensures { (result ≡ self.value * self.value / scale) × (result ≤ 1096632864) }
    {
        self.value * self.value / SCALE
    }

    // The sine.
    pub(crate) fn sine(self) -> u64
        ensures { (pos result ≡ sine_of self.value) × (result ≤ self.value) }
    {
        series(self.value, self.square(), &[6, 20, 42, 72, 110, 156])
    }

    // The cosine, which is above 0.45.
    pub(crate) fn cosine(self) -> u64
        ensures { (pos result ≡ cosine_of self.value) × (451683568 ≤ result) × (result ≤ 1000000000) }
    {
        series(SCALE, self.square(), &[2, 12, 30, 56, 90, 132])
    }
}

// The term of a series after the former one, which is no greater.
fn next_term(former: u64, z: u64, divisor: u64) -> u64
    requires { (former ≤ 1047202399) × (z ≤ 1096632864) × (2 ≤ divisor) × (divisor ≤ 156) }
    ensures { (result ≡ former * z / (scale * divisor)) × (result ≤ former) }
{
    former * z / (SCALE * divisor)
}

// Seven terms, signs alternating, first plus; the divisors are those of the second to the seventh.
#[tactic(auto, unfolding(crate::specs::WorkingRule::term, crate::specs::WorkingRule::alternating))]
fn series(first: u64, z: u64, divisors: &[u64; 6]) -> u64
    requires first_bound { (first ≤ 1047202399) × (z ≤ 1096632864) }
    requires divisors_bound { All (λ d. (2 ≤ d) × (d ≤ 156)) divisors.now }
    ensures { pos result ≡ alternating (term (λ j. slice_index divisors.now (j - 1)) first z) 6 }
{
    let mut term = first;
    let mut added = first;
    let mut taken = 0;
    for (j, divisor) in divisors.iter().enumerate() {
        term = next_term(term, z, *divisor);
        if j % 2 == 0 {
            taken += term;
        } else {
            added += term;
        }
    }
    added - taken
}
