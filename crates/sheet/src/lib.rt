// The packed sheet of documents 01 and 02: a line as bytes, read and written, in either edition.
#![tactic(auto)]

mod fields;
mod layout;
mod pen;
mod reader;
mod writer;

pub use layout::{check_edition, edition_numbered};
pub use reader::{SheetLine, read};
pub use writer::write;
