// The line of points that are given by coordinates (document 02, N2): what it is and what is refused; there are no functions here.
#![tactic(auto)]

// The way from one point to the next, in whole mm.
#[derive(Clone, Copy)]
pub struct Leg {
    pub east: i64,
    pub north: i64,
}
