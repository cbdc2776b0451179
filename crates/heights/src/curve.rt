// Vertical curves, and the heights in them.
ghost use Rattle.std.specs.Prelude.{◌≡◌, ◌+◌, ◌-◌, ◌*◌, ◌≤◌, pos, nat_abs, ◌-ℤ◌, ◌*ℤ◌};
ghost use Rattle.numbers.specs.Whole.{down};
ghost use Rattle.grades.specs.Heights.{height_in};

use crate::straight::Straight;

// A vertical curve.
#[derive(Clone, Copy)]
pub(crate) struct Curve {
    // The grade into it, from its beginning on.
    pub(crate) incoming: Straight,
    // The grade out of it, in millionths.
    pub(crate) outgoing: i64,
    // Its length, in mm.
    pub(crate) length: u64,
    ghost flat: { nat_abs outgoing ≤ 120000 },
    ghost least: { 1 ≤ length },
    ghost most: { length ≤ 2000000 },
}

impl Curve {
    // How far the curve lies above the incoming grade, x mm after its beginning, in millionths of a mm, rounded down.
    fn rise(self, x: u64) -> i64
        requires { x ≤ self.length }
        ensures value { result ≡ down ((self.outgoing -ℤ self.incoming.grade) *ℤ pos (x * x)) (2 * self.length) }
        ensures bound { nat_abs result ≤ 960000000000000000 }
    {
        ((self.outgoing - self.incoming.grade) * (x * x) as i64).div_euclid(2 * self.length as i64)
    }

    // The height at a station, in mm, rounded down.
    pub(crate) fn height_on(self, station: u64) -> i64
        requires from { self.incoming.station ≤ station }
        requires upto { station ≤ self.incoming.station + self.length }
        requires known { station ≤ 200000000 }
        ensures { result ≡ height_in self.incoming.height self.incoming.grade self.outgoing self.length (station - self.incoming.station) }
    {
        let rise = self.rise(station - self.incoming.station);
        (self.incoming.carried_height(station) + rise).div_euclid(1000000)
    }
}
