// The lengths and the stations of a whole line by document 01's working rule.
#![tactic(auto)]

mod lengths;
mod measured;
mod row;
mod tables;

pub use lengths::line_lengths;
pub use measured::MeasuredLine;
pub use row::stations;

// The straights and the arcs of a line, in µm: straight i is that of distance i (0 to n), arc i that of curve i + 1. Unused entries are 0.
// Two arrays, since there is a straight more than arcs.
#[derive(Clone, Copy)]
pub struct LineLengths {
    pub straights: [u64; 65],
    pub arcs: [u64; 64],
}
