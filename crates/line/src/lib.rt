// The line of document 01: its fields with their units, and the checks of its fields.
#![tactic(auto)]

mod checks;

ghost use Rattle.std.specs.Prelude.{◌≡◌};
ghost use Rattle.line.specs.Entries.{side_bit, blank_line};

pub use checks::{check_curve, check_distance, check_fields, check_head, check_line, check_speed};

// A curve at an intersection point (PI), with two equal spirals or none. Any value of each type may
// stand here; `check_curve` says which are in range.
#[derive(Clone, Copy)]
pub struct Curve {
    // The side to which the line turns: left, or else right.
    pub left: bool,
    // The deflection A between the two straights, in seconds of arc.
    pub deflection: u32,
    // The radius R of the arc, in mm.
    pub radius: u32,
    // The length L of each spiral, in mm; 0 for a simple curve.
    pub spiral: u32,
}

// A line of `count` curves: the first `count` entries of `curves` and the first `count + 1` of
// `distances` are used, the others mean nothing. Arrays and a count, as document 01 has it: memory is fixed.
#[derive(Clone, Copy)]
pub struct Line {
    // The design speed V, in km/h.
    pub speed: u32,
    // The greatest superelevation e, in percent.
    pub crossfall: u32,
    // The station of the line's start, in mm.
    pub start: u32,
    // The number n of curves.
    pub count: usize,
    // From the start to PI 1, from PI to PI, and from the last PI to the end, in mm.
    pub distances: [u32; 65],
    pub curves: [Curve; 64],
}

// A side as a number, for sheets and the C interface: 0 right, 1 left.
pub fn side_bit(left: bool) -> u32
    ensures { result ≡ side_bit left }
{
    u32::from(left)
}

// A line without curves, all its fields zero. (No `Default`: the contracts of readers name this function's line.)
pub fn blank_line() -> Line
    ensures { result ≡ blank_line }
{
    Line {
        speed: 0,
        crossfall: 0,
        start: 0,
        count: 0,
        distances: [0; 65],
        curves: [Curve {
            left: false,
            deflection: 0,
            radius: 0,
            spiral: 0,
        }; 64],
    }
}
