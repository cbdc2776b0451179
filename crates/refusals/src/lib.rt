// The refusals of document 01's table, which document 02's numbers join, by name with their places, what a check says, and what a call that fills a
// caller's buffer does.
#![tactic(auto)]

mod filling;

ghost use Rattle.std.specs.Prelude.{◌≡◌};
ghost use Rattle.refusals.specs.Table.{number_of, place_of};
ghost use Rattle.refusals.specs.Outcomes.{outcome_of, need, ◌▹◌};

pub use filling::fill_front;

// A refusal with its place: the index of a distance (0 to n), the number of a curve or a vertex (1 to n), or none.
#[derive(Clone, Copy)]
pub enum Refusal {
    // 1: too few bytes.
    Truncated,
    // 2: the edition is not one that is known, or not the other one, to convert.
    Edition,
    // 3: too many curves, points or vertices, too few points, or a wrong count of numbers.
    CurveCount,
    // 4: not a design speed.
    Speed,
    // 5: the crossfall is out of range.
    Crossfall,
    // 6: the start is past the greatest, or a profile's start, vertex or height is out of range.
    Start,
    // 7: too many bytes, or a fill bit is set.
    Trailing,
    // 8: the distance is out of range.
    Distance(u16),
    // 9: the deflection is out of range.
    Deflection(u16),
    // 10: the radius is out of range.
    Radius(u16),
    // 11: the spiral is out of range, or longer than the radius.
    Spiral(u16),
    // 12: the radius is below the least for design speed and crossfall.
    LeastRadius(u16),
    // 13: the spiral is below the least for design speed and radius.
    LeastSpiral(u16),
    // 14: the arc is under 1,000 µm.
    ShortArc(u16),
    // 15: the straight is under 1,000 µm.
    ShortStraight(u16),
    // 16: the caller's buffer is too small.
    SmallBuffer,
    // 17: the station is outside the line or the profile.
    Station,
    // 18: the coordinate is out of range.
    Coordinate,
    // 19: the legs at the PI do not turn by a second.
    NoTurn(u16),
    // 20: the legs at the PI turn by 216,001 seconds or more.
    WideTurn(u16),
    // 21: the vertical curve's length is out of range, or it reaches past the curve before it or the start.
    VerticalCurve(u16),
    // 22: the grade is out of range; the first grade's place is 0.
    Grade(u16),
    // 23: the vertical curve is shorter than sight needs.
    Sight(u16),
    // 24: the start is past the greatest of the edition asked for.
    FarStart,
    // 25: the thousandth is past the last row of the unit spiral's table.
    Thousandth,
}

impl Refusal {
    // The number in document 01's table. (A `match`: an enum whose variants hold a place has no `as`.)
    pub fn number(self) -> u8
        ensures { result ≡ number_of self }
    {
        match self {
            Refusal::Truncated => 1,
            Refusal::Edition => 2,
            Refusal::CurveCount => 3,
            Refusal::Speed => 4,
            Refusal::Crossfall => 5,
            Refusal::Start => 6,
            Refusal::Trailing => 7,
            Refusal::Distance(_) => 8,
            Refusal::Deflection(_) => 9,
            Refusal::Radius(_) => 10,
            Refusal::Spiral(_) => 11,
            Refusal::LeastRadius(_) => 12,
            Refusal::LeastSpiral(_) => 13,
            Refusal::ShortArc(_) => 14,
            Refusal::ShortStraight(_) => 15,
            Refusal::SmallBuffer => 16,
            Refusal::Station => 17,
            Refusal::Coordinate => 18,
            Refusal::NoTurn(_) => 19,
            Refusal::WideTurn(_) => 20,
            Refusal::VerticalCurve(_) => 21,
            Refusal::Grade(_) => 22,
            Refusal::Sight(_) => 23,
            Refusal::FarStart => 24,
            Refusal::Thousandth => 25,
        }
    }

    // The place: a distance's index, a curve's or a vertex's number, or 0.
    pub fn place(self) -> u16
        ensures { result ≡ place_of self }
    {
        match self {
            Refusal::Truncated
            | Refusal::Edition
            | Refusal::CurveCount
            | Refusal::Speed
            | Refusal::Crossfall
            | Refusal::Start
            | Refusal::Trailing
            | Refusal::SmallBuffer
            | Refusal::Station
            | Refusal::Coordinate
            | Refusal::FarStart
            | Refusal::Thousandth => 0,
            Refusal::Distance(place)
            | Refusal::Deflection(place)
            | Refusal::Radius(place)
            | Refusal::Spiral(place)
            | Refusal::LeastRadius(place)
            | Refusal::LeastSpiral(place)
            | Refusal::ShortArc(place)
            | Refusal::ShortStraight(place)
            | Refusal::NoTurn(place)
            | Refusal::WideTurn(place)
            | Refusal::VerticalCurve(place)
            | Refusal::Grade(place)
            | Refusal::Sight(place) => place,
        }
    }
}

// What must hold, and the refusal where it does not.
pub fn must(holds: bool, refusal: Refusal) -> Result<(), Refusal>
    ensures { outcome_of result ≡ need holds (number_of refusal) (place_of refusal) }
{
    if holds { Ok(()) } else { Err(refusal) }
}

// The first refusal of two checks that were made already.
pub fn first(a: Result<(), Refusal>, b: Result<(), Refusal>) -> Result<(), Refusal>
    ensures { outcome_of result ≡ (outcome_of a ▹ outcome_of b) }
{
    a.and(b)
}
