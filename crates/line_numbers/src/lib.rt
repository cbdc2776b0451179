// A line as numbers, for callers in other languages: n, V, e, start, distance 0, then side, A, R, L and the distance after it for
// each curve; 325 numbers for the 64 curves of a full line.
#![tactic(auto)]

mod reader;
mod writer;

pub use reader::{check_count, read};
pub use writer::write;
