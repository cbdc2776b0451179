// The elements of one curve, the points of its spirals, and the sine and cosine of a turn, by document 01's working rule.
#![tactic(auto)]

mod point;
mod rule;
mod series;
mod turn;
mod unit_spiral;

// The scale of angles and ratios.
const SCALE: u64 = 1000000000;

pub use point::spiral_point;
pub use rule::{curve_elements, scaled_length};
pub use turn::turn_ratios;

// The elements of a curve, in µm.
#[derive(Clone, Copy)]
pub struct Elements {
    // X: the end of the spiral, along the tangent.
    pub x: u64,
    // Y: the end of the spiral, square to the tangent.
    pub y: u64,
    // k: the abscissa of the arc's centre.
    pub centre: u64,
    // p: the shift of the arc from the tangent.
    pub shift: u64,
    // D: the length of the arc.
    pub arc: u64,
    // TT: the tangent, from TS to the PI.
    pub tangent: u64,
}

// A point of a spiral: its offsets from the tangent at the spiral's outer end, in µm.
#[derive(Clone, Copy)]
pub struct SpiralPoint {
    // Along the tangent.
    pub x: u64,
    // Square to the tangent.
    pub y: u64,
}

// The sine and the cosine of a turn, at scale 10⁹.
#[derive(Clone, Copy)]
pub struct TurnRatios {
    pub sine: u32,
    pub cosine: u32,
}
