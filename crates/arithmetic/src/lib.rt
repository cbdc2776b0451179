// Exact arithmetic on whole numbers: the whole root, and the order of two products that no 64 bits hold.
#![tactic(auto)]

mod product;
mod square_root;

pub use product::product_at_most;
pub use square_root::root;
