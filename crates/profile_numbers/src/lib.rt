// A profile as numbers, for callers in other languages, and its height at a station.
#![tactic(auto)]

mod call;
mod reader;

pub use call::height;
