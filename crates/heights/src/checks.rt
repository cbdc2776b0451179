// The checks of a profile: refusals 3, 4 and 6, then 22, 21 and 23, a pass over the vertices each.
ghost use Rattle.std.specs.Prelude.{◌≡◌, ℕ, suc, ◌≤◌, leb, nat_abs, IfOk};
ghost use Rattle.refusals.specs.Outcomes.{outcome_of, need};
ghost use Rattle.refusals.specs.Order.{in_turn, outcome};
ghost use Rattle.profile.specs.Vertices.{station_of};
ghost use Rattle.profile.specs.Checks.{curve_fits, station_check, grade_check, length_check, sight_check, range_checks, profile_checks};

use crate::ranged::Ranged;
use crate::stopping::{sight_serves, stopping_distance};
use line::check_speed;
use profile::{Profile, Vertex};
use refusals::{Refusal, must};

// Refusal 6: a station, in mm.
fn check_station(station: u64) -> Result<(), Refusal>
    ensures { outcome_of result ≡ need (leb station 200000000) 6 0 }
{
    must(station <= 200000000, Refusal::Start)
}

// Refusal 6: the start, and the station of each vertex. (The count's limit, here and twice below, is a fact of `Ranged` once all three pass.)
fn check_stations(profile: &Profile) -> Result<(), Refusal>
    requires { profile.now.count ≤ 32 }
    ensures { outcome_of result ≡ outcome (in_turn (station_check profile.now) (suc profile.now.count)) }
{
    check_station(profile.start)?;
    for vertex in &profile.vertices[..profile.count] {
        check_station(vertex.station)?;
    }
    Ok(())
}

// Refusal 22: a grade, in millionths, of the vertex of a number, or 0 for the first grade.
fn check_grade(grade: i64, place: u16) -> Result<(), Refusal>
    ensures { outcome_of result ≡ need (leb (nat_abs grade) 120000) 22 place }
{
    must(grade.unsigned_abs() <= 120000, Refusal::Grade(place))
}

// Refusal 22: the first grade, and the grade of each vertex.
fn check_grades(profile: &Profile) -> Result<(), Refusal>
    requires { profile.now.count ≤ 32 }
    ensures { outcome_of result ≡ outcome (in_turn (grade_check profile.now) (suc profile.now.count)) }
{
    check_grade(profile.grade, 0)?;
    for (i, vertex) in profile.vertices[..profile.count].iter().enumerate() {
        check_grade(vertex.grade, (i + 1) as u16)?;
    }
    Ok(())
}

// Whether a curve has a length in range, and begins at the end of the one before it or behind.
fn curve_fits(end: u64, vertex: Vertex) -> bool
    requires { end ≤ 300000000 }
    ensures { result ≡ curve_fits end vertex.station vertex.length }
{
    let length = vertex.length;
    length % 2 == 0 && (1..=2000000).contains(&length) && end + length / 2 <= vertex.station
}

// Refusal 21 of each curve.
fn check_lengths(profile: &Profile) -> Result<(), Refusal>
    requires few { profile.now.count ≤ 32 }
    requires near { (k : ℕ) → k ≤ profile.now.count → station_of profile.now k ≤ 200000000 }
    ensures { outcome_of result ≡ outcome (in_turn (length_check profile.now) profile.now.count) }
{
    let mut end = profile.start;
    for (i, vertex) in profile.vertices[..profile.count].iter().enumerate() {
        must(
            curve_fits(end, *vertex),
            Refusal::VerticalCurve((i + 1) as u16),
        )?;
        end = vertex.station + vertex.length / 2;
    }
    Ok(())
}

// Refusals 3, 4, 6, 22 and 21.
#[tactic(auto, unfolding(profile::specs::Checks::range_checks, profile::specs::Checks::height_check))]
fn check_range(profile: &Profile) -> Result<Ranged<'_>, Refusal>
    ensures answer { outcome_of result ≡ outcome (range_checks profile.now) }
    ensures same { IfOk result (λ ranged. ranged.profile.now ≡ profile.now) }
{
    must(profile.count <= 32, Refusal::CurveCount)?;
    check_speed(profile.speed)?;
    check_stations(profile)?;
    must(profile.height.unsigned_abs() <= 10000000, Refusal::Start)?;
    check_grades(profile)?;
    check_lengths(profile)?;
    Ok(Ranged { profile })
}

// Refusal 23 of each curve.
fn check_sight(ranged: Ranged) -> Result<(), Refusal>
    ensures { outcome_of result ≡ outcome (in_turn (sight_check ranged.entry.profile.now) ranged.entry.profile.now.count) }
{
    let profile = ranged.profile;
    let distance = stopping_distance(profile.speed);
    let mut incoming = profile.grade;
    for (i, vertex) in profile.vertices[..profile.count].iter().enumerate() {
        must(
            sight_serves(distance, incoming, vertex.grade, vertex.length),
            Refusal::Sight((i + 1) as u16),
        )?;
        incoming = vertex.grade;
    }
    Ok(())
}

// The first refusal of a profile.
#[tactic(auto, unfolding(profile::specs::Checks::profile_checks))]
pub(crate) fn check_profile(profile: &Profile) -> Result<Ranged<'_>, Refusal>
    ensures answer { outcome_of result ≡ outcome (profile_checks profile.now) }
    ensures same { IfOk result (λ ranged. ranged.profile.now ≡ profile.now) }
{
    let ranged = check_range(profile)?;
    check_sight(ranged)?;
    Ok(ranged)
}
