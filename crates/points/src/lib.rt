// A line from points that are given by coordinates (document 02, N2).
#![tactic(auto)]

mod checks;
mod legs;
mod making;

pub use making::line_from_points;
