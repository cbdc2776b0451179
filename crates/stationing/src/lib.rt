// Document 01's road tables, stations and checks 12 to 16 of a whole line, and its elements in order; there is no code here.
#![tactic(auto)]

// What a line is made of: straights, and the two spirals and the arc of each curve.
#[derive(Clone, Copy)]
pub enum ElementKind {
    Straight,
    SpiralIn,
    Arc,
    SpiralOut,
}
