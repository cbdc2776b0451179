// The list of a row's stations.
ghost use Rattle.std.specs.Prelude.{◌≡◌, ◌++◌, ◌+◌, ◌≤◌, ◌<◌, length};
ghost use Rattle.refusals.specs.Order.{unchecked};
ghost use Rattle.refusals.specs.Filling.{fill_reply_of, fill};
ghost use Rattle.report.specs.Numbers.{ascii};
ghost use Rattle.report.specs.Text.{point_name, point_curve, point_line, station_list};
ghost use Rattle.report.specs.Pieces.{Wrote};

use crate::lines::{Lines, fill_lines};
use crate::numbers::{decimal_length, metres_length, put, put_decimal, put_metres};
use refusals::Refusal;

// The curve of number i of a row of `count` numbers; "the end has curve 0".
#[tactic(auto, unfolding(crate::specs::Text::point_curve))]
fn curve_at(count: usize, i: usize) -> u64
    requires { i < count }
    ensures { result ≡ point_curve count i }
{
    if i + 1 == count {
        0
    } else {
        (i / 4 + 1) as u64
    }
}

// The name of number i of a row of `count` numbers.
#[tactic(auto, unfolding(crate::specs::Text::point_name, crate::specs::Text::turn_name, crate::specs::Numbers::ascii))]
fn point_name(count: usize, i: usize) -> &'static [u8]
    requires { i < count }
    ensures name { result.now ≡ point_name count i }
    ensures short { length result.now ≤ 3 }
{
    if i + 1 == count {
        return b"END";
    }
    match i % 4 {
        0 => b"TS",
        1 => b"SC",
        2 => b"CS",
        _ => b"ST",
    }
}

// A row of stations, each on a line of its own.
#[derive(Clone, Copy)]
struct Stations<'a> {
    row: &'a [u64],
}

impl Lines for Stations<'_> {
    ghost count = { λ s. length s.row.now };

    ghost line = { λ s. point_line s.row.now };

    fn how_many(&self) -> usize {
        self.row.len()
    }

    #[tactic(auto, using(crate::proofs::Lengths::lengths))]
    fn length_of(&self, i: usize) -> usize {
        let count = self.row.len();
        let name = point_name(count, i).len();
        name + decimal_length(curve_at(count, i)) + metres_length(self.row[i]) + 3
    }

    #[tactic(auto, using(crate::proofs::Lengths::lengths), unfolding(crate::specs::Numbers::ascii))]
    fn put_line(&self, i: usize, text: &mut [u8], at: usize) -> usize {
        let count = self.row.len();
        let at = put(text, at, point_name(count, i));
        let at = put(text, at, b" ");
        let at = put_decimal(text, at, curve_at(count, i), b" ");
        put_metres(text, at, self.row[i], b"\n")
    }
}

// The stations of a row as document 01's station program prints them, at the front of `text`: the heading, and for each number a
// line, whose stations are in metres with six decimals. The last number of the row is the end, and those before it are TS, SC,
// CS and ST of each curve. Answers the length of the text, or refusal 16; a refusal leaves `text` as it was.
#[tactic(auto, unfolding(crate::specs::Text::station_list, crate::specs::Text::heading, crate::specs::Text::words, crate::specs::Numbers::ascii))]
pub fn station_list(row: &[u64], text: &mut [u8]) -> Result<usize, Refusal>
    ensures answer { fill_reply_of result ≡ (fill unchecked (station_list row.now) text.old).reply }
    ensures memory { text.new ≡ (fill unchecked (station_list row.now) text.old).buffer }
{
    fill_lines(b"POINT CURVE STATION\n", &Stations { row }, text)
}
