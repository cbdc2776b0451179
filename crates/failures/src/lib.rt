// What the programs write on standard error where reading or writing fails.
#![tactic(auto)]

use std::io;

// The text of an error without its number, which std puts behind the system's words in brackets.
fn without_number(text: &str) -> &str {
    match text.split_once(" (os error ") {
        Some((words, _)) => words,
        None => text,
    }
}

// Writes a line: what failed, as the caller names it, a colon and the system's words. Where there is no memory for those words alone, the
// error's number stands behind them; a failure to write the line goes unheard.
pub fn fail(rt: &(impl Eprint + Alloc), what: &str, error: io::Error) {
    let _ = match format!(in rt.alloc(); "{error}") {
        Ok(text) => eprintln!(rt; "{what}: {}", without_number(text.as_str())),
        Err(_) => eprintln!(rt; "{what}: {error}"),
    };
}
