// The element under a station (document 02, N1).
#![tactic(auto)]

mod stored;
mod walk;

use stationing::ElementKind;
pub use stored::peg_numbers;
pub use walk::peg_at;

// Where a station lies. Lengths and offsets are in µm.
#[derive(Clone, Copy)]
pub struct Peg {
    // A straight, or a spiral or the arc of a curve.
    pub kind: ElementKind,
    // The index of the straight's distance (0 to n), or the number of the curve (1 to n).
    pub number: u16,
    // From the element's beginning; on the spiral out back from ST.
    pub length: u64,
    // On a spiral along the tangent at its outer end (TS or ST), elsewhere 0.
    pub x: u64,
    // On a spiral square to that tangent, to the right, so below zero on a left curve; elsewhere 0.
    pub y: i64,
}
