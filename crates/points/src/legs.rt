// The legs between points, in whole mm east and north, with their lengths and products.
ghost use Rattle.std.specs.Prelude.{◌≡◌, ◌≤◌, nat_abs};
ghost use Rattle.coordinates.specs.Legs.{length_of, cross_of, dot_of};
ghost use Rattle.points.specs.Reach.{Short};

use arithmetic::root;
use coordinates::Leg;

// A leg of 20,000,000 mm either way at the most.
#[derive(Clone, Copy)]
pub(crate) struct ShortLeg {
    pub(crate) leg: Leg,
    ghost short: { Short leg },
}

impl ShortLeg {
    // Its length, rounded down.
    #[tactic(auto, unfolding(coordinates::specs::Legs::length_of))]
    pub(crate) fn distance(self) -> u32
        ensures { result ≡ length_of self.leg }
    {
        let east = self.leg.east.unsigned_abs();
        let north = self.leg.north.unsigned_abs();
        root(east * east + north * north) as u32
    }

    // The cross product with the leg after it.
    #[tactic(auto, unfolding(coordinates::specs::Legs::cross_of))]
    pub(crate) fn cross(self, out: ShortLeg) -> i64
        ensures value { result ≡ cross_of self.leg out.leg }
        ensures bound { nat_abs result ≤ 800000000000000 }
    {
        self.leg.east * out.leg.north - self.leg.north * out.leg.east
    }

    // The dot product with the leg after it.
    #[tactic(auto, unfolding(coordinates::specs::Legs::dot_of))]
    pub(crate) fn dot(self, out: ShortLeg) -> i64
        ensures value { result ≡ dot_of self.leg out.leg }
        ensures bound { nat_abs result ≤ 800000000000000 }
    {
        self.leg.east * out.leg.east + self.leg.north * out.leg.north
    }
}
