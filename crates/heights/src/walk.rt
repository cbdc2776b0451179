// From the start over the vertices, in order, to a station.
ghost use Rattle.std.specs.Prelude.{◌≡◌};
ghost use Rattle.profile.specs.Vertices.{station_of, grade_of, height_of};
ghost use Rattle.profile.specs.Checked.{Asked};
ghost use Rattle.profile.specs.HeightAt.{height_by, height_reply_of, height_reply};

use crate::checks::check_profile;
use crate::curve::Curve;
use crate::ranged::Ranged;
use crate::straight::Straight;
use profile::Profile;
use refusals::{Refusal, must};

impl Ranged<'_> {
    // The straight grade that goes out of the start.
    #[tactic(auto, unfolding(profile::specs::Vertices::station_of, profile::specs::Vertices::height_of, profile::specs::Vertices::grade_of))]
    fn first_grade(self) -> Straight
        ensures station { result.station ≡ station_of self.entry.profile.now 0 }
        ensures height { result.height ≡ height_of self.entry.profile.now 0 }
        ensures grade { result.grade ≡ grade_of self.entry.profile.now 0 }
    {
        Straight {
            station: self.profile.start,
            height: self.profile.height * 1000000,
            grade: self.profile.grade,
        }
    }

    // The height at a station, in mm. That at each vertex is carried in millionths of a mm.
    fn height_along(self, station: u64) -> i64
        requires { Asked self.profile.now station }
        ensures { result ≡ height_by self.entry.profile.now station }
    {
        let profile = self.profile;
        let mut from = self.first_grade();
        for vertex in &profile.vertices[..profile.count] {
            let begin = vertex.station - vertex.length / 2;
            if station <= begin {
                return from.height_on(station);
            }
            if station < vertex.station + vertex.length / 2 {
                let curve = Curve {
                    incoming: from.onward(begin, from.grade),
                    outgoing: vertex.grade,
                    length: vertex.length,
                };
                return curve.height_on(station);
            }
            from = from.onward(vertex.station, vertex.grade);
        }
        from.height_on(station)
    }
}

// The height in mm at a station in mm (document 02, N5): on straight grades, and in the parabola of each curve, rounded once, down. Or the first
// refusal: 3 more than 32 vertices, 4 the speed, 6 a station or the height outside its range, then in a pass each over the vertices 22 a grade,
// 21 a curve's length or place, and 23 a curve shorter than sight needs; last 17 a station before the start or beyond 200,000,000. Any profile and
// any station are taken; unused entries change nothing.
#[tactic(auto, unfolding(refusals::specs::Replying::reply, profile::specs::HeightAt::height_reply, profile::specs::Checks::height_checks, profile::specs::Checks::asked_check))]
pub fn height_at(profile: Profile, station: u64) -> Result<i64, Refusal>
    ensures answer { height_reply_of result ≡ height_reply profile station }
{
    let ranged = check_profile(&profile)?;
    must(
        (profile.start..=200000000).contains(&station),
        Refusal::Station,
    )?;
    Ok(ranged.height_along(station))
}
