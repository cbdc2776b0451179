// The height of a profile at a station (document 02, N5).
#![tactic(auto)]

mod checks;
mod curve;
mod ranged;
mod stopping;
mod straight;
mod walk;

pub use walk::height_at;
