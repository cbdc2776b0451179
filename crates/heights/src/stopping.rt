// Stopping distances, and whether a vertical curve is long enough for them (source document 001).
ghost use Rattle.std.specs.Prelude.{◌≡◌, ◌%◌, ◌≤◌, nat_abs};
ghost use Rattle.sight.specs.Sight.{long_enough, sight_serves};
ghost use Rattle.sight.specs.Formulas.{stopping_distance};

// The stopping distance at level grade, in m, at 40, 50, .. 120 km/h.
const STOPPING: [u64; 9] = [45, 64, 85, 111, 140, 173, 211, 267, 310];

// That at a design speed, from the table. (The calculator's `DesignSpeed` is no type of this crate: a profile has no calculator below it.)
pub(crate) fn stopping_distance(speed: u64) -> u64
    requires least { 40 ≤ speed }
    requires most { speed ≤ 120 }
    requires tens { speed % 10 ≡ 0 }
    ensures value { result ≡ stopping_distance speed }
    ensures bound { result ≤ 310 }
{
    STOPPING[((speed - 40) / 10) as usize]
}

// The test of a curve's length in mm, for a stopping distance in m, a change of grade in millionths and 412 or 122 + 3.5 D in tenths.
#[tactic(auto, unfolding(sight::specs::Sight::long_enough))]
fn long_enough(distance: u64, length: u64, change: u64, tenths: u64) -> bool
    requires near { distance ≤ 310 }
    requires short { length ≤ 2000000 }
    requires flat { change ≤ 240000 }
    requires known { tenths ≤ 12070 }
    ensures { result ≡ long_enough distance length change tenths }
{
    if 1000 * distance <= length {
        distance * distance * change <= length * tenths
    } else {
        2000 * distance * change <= length * change + tenths * 1000000
    }
}

// A crest where the incoming grade is the greater one, else a sag.
#[tactic(auto, unfolding(sight::specs::Sight::sight_serves))]
pub(crate) fn sight_serves(distance: u64, incoming: i64, outgoing: i64, length: u64) -> bool
    requires near { distance ≤ 310 }
    requires incoming_flat { nat_abs incoming ≤ 120000 }
    requires outgoing_flat { nat_abs outgoing ≤ 120000 }
    requires short { length ≤ 2000000 }
    ensures { result ≡ sight_serves distance incoming outgoing length }
{
    let tenths = if outgoing < incoming {
        4120
    } else {
        1220 + 35 * distance
    };
    long_enough(distance, length, incoming.abs_diff(outgoing), tenths)
}
