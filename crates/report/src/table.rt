// The text of a table that has two numbers to a row.
ghost use Rattle.std.specs.Prelude.{◌≡◌, ◌+◌, ◌*◌, ◌/◌, ◌≤◌, ◌<◌, length};
ghost use Rattle.refusals.specs.Order.{unchecked};
ghost use Rattle.refusals.specs.Filling.{fill_reply_of, fill};
ghost use Rattle.report.specs.Text.{row_line, table_text};
ghost use Rattle.report.specs.Pieces.{Wrote};

use crate::lines::{Lines, fill_lines};
use crate::numbers::{decimal_length, put_decimal};
use refusals::Refusal;

// The numbers of a table, two to a row, each row on a line of its own.
#[derive(Clone, Copy)]
struct Rows<'a> {
    table: &'a [u64],
}

impl Lines for Rows<'_> {
    ghost count = { λ s. length s.table.now / 2 };

    ghost line = { λ s. row_line s.table.now };

    fn how_many(&self) -> usize {
        self.table.len() / 2
    }

    #[tactic(auto, using(crate::proofs::Lengths::lengths))]
    fn length_of(&self, i: usize) -> usize {
        let row = decimal_length(i as u64);
        row + decimal_length(self.table[2 * i]) + decimal_length(self.table[2 * i + 1]) + 3
    }

    #[tactic(auto, using(crate::proofs::Lengths::lengths), unfolding(crate::specs::Numbers::ascii))]
    fn put_line(&self, i: usize, text: &mut [u8], at: usize) -> usize {
        let at = put_decimal(text, at, i as u64, b" ");
        let at = put_decimal(text, at, self.table[2 * i], b" ");
        put_decimal(text, at, self.table[2 * i + 1], b"\n")
    }
}

// A table that has two numbers to a row, as document 02's program prints the unit spiral's, at the front of `text`: for each row a line
// with its number, from 0, and its two numbers. Answers the length of the text, or refusal 16; a refusal leaves `text` as it was.
#[tactic(auto, unfolding(crate::specs::Text::table_text))]
pub fn table_text(table: &[u64], text: &mut [u8]) -> Result<usize, Refusal>
    ensures answer { fill_reply_of result ≡ (fill unchecked (table_text table.now) text.old).reply }
    ensures memory { text.new ≡ (fill unchecked (table_text table.now) text.old).buffer }
{
    fill_lines(b"", &Rows { table }, text)
}
