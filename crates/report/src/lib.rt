// The text of an answer, as the programs of documents 01 and 02 print it, in the caller's bytes.
#![tactic(auto)]

mod lines;
mod list;
mod numbers;
mod refusal;
mod sums;
mod table;

pub use list::station_list;
pub use refusal::refusal_line;
pub use sums::length_list;
pub use table::table_text;
