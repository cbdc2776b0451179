// The deflection at a PI by document 02 (N2), from the size of the cross product of the legs into and out of it and from their dot product.
#![tactic(auto)]

ghost use Rattle.std.specs.Prelude.{◌≡◌, ◌≤◌, pos};
ghost use Rattle.turns.specs.Turn.{reached, turn_or_wide};
ghost use Rattle.turns.specs.Search.{Bracket};

use arithmetic::product_at_most;
use elements::turn_ratios;

// The legs into and out of a PI: the size of their cross product, and their dot product.
#[derive(Clone, Copy)]
struct Legs {
    cross: u64,
    dot: u64,
}

impl Legs {
    // Whether they turn by `seconds` or more.
    fn reach(self, seconds: u32) -> bool
        requires { seconds ≤ 216001 }
        ensures { result ≡ reached self.cross (pos self.dot) seconds }
    {
        let ratios = turn_ratios(seconds);
        product_at_most(self.dot, ratios.sine, self.cross, ratios.cosine)
    }

    // The turn between two bounds, by halving: what is reached at a second is reached at each earlier one. (By hand: std halves slices.)
    fn search(self, from: u32, to: u32) -> u32
        requires { Bracket self.cross self.dot from to }
        ensures { (result ≡ turn_or_wide self.cross (pos self.dot)) × (result ≤ 216001) }
    {
        let mut low = from;
        let mut high = to;
        while low + 1 < high {
            let middle = (low + high) / 2;
            if self.reach(middle) {
                low = middle;
            } else {
                high = middle;
            }
        }
        low
    }

    // The whole second nearest to the turn, 1 to 216,000; 1 for what is no number. The angle's distance from 30° is an arc tangent, here a
    // polynomial that is right to 0.0002 seconds; nothing rests on that but the time of the search.
    fn guess(self) -> u32
        ensures { (1 ≤ result) × (result ≤ 216000) }
    {
        let across = std::num::nearest_u64_to_f64(self.cross);
        let along = std::num::nearest_u64_to_f64(self.dot);
        let x = (across * 0.8660254037844386 - along * 0.5)
            / (along * 0.8660254037844386 + across * 0.5);
        let y = x * x;
        let ratio = 0.9999999985243728
            + y * (-0.3333328982151571
                + y * (0.19997879711983235
                    + y * (-0.142463842620131
                        + y * (0.10755550630748853
                            + y * (-0.07367106870684093 + y * 0.031019272976884525)))));
        std::num::saturating_f64_to_u32(x * ratio * 206264.80624709636 + 108000.5).clamp(1, 216000)
    }
}

// The deflection in seconds of arc, or 216,001 where the legs turn by that or more, of every two numbers. The nearest second is tried and
// then one beside it, two tests, which settle it as a rule. Where they do not, the rest, 216,000 seconds at the most, is halved in 18 tests
// more: 20 at the most.
pub fn turn(cross: u64, dot: u64) -> u32
    ensures { (result ≡ turn_or_wide cross (pos dot)) × (result ≤ 216001) }
{
    let legs = Legs { cross, dot };
    let near = legs.guess();
    if legs.reach(near) {
        if legs.reach(near + 1) {
            legs.search(near + 1, 216002)
        } else {
            legs.search(near, near + 1)
        }
    } else if legs.reach(near - 1) {
        legs.search(near - 1, near)
    } else {
        legs.search(0, near)
    }
}
