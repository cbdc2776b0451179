// The text of a line's lengths.
ghost use Rattle.std.specs.Prelude.{◌≡◌, ◌+◌, ◌≤◌, length};
ghost use Rattle.io.specs.Counts.{IsPrefixLen};
ghost use Rattle.refusals.specs.Order.{unchecked};
ghost use Rattle.refusals.specs.Filling.{fill_reply_of, fill};
ghost use Rattle.report.specs.Text.{named_line, length_list};
ghost use Rattle.report.specs.Pieces.{Wrote};

use crate::numbers::{put, put_decimal};
use refusals::{Refusal, fill_front};

// So many bytes hold any four lengths (`proofs/Short.antt`).
const MOST: usize = 111;

// The line of a name and a number, from index `at` on; space, number and end of the line take at most 22 bytes.
#[tactic(auto, using(crate::proofs::Lengths::lengths), unfolding(crate::specs::Numbers::ascii))]
fn put_named(text: &mut [u8], at: usize, name: &[u8], n: u64) -> usize
    requires { at + length name.now + 22 ≤ length text.old }
    ensures line { Wrote text.old text.new at result (named_line name.now n) }
    ensures short { result ≤ at + length name.now + 22 }
{
    let at = put(text, at, name);
    let at = put(text, at, b" ");
    put_decimal(text, at, n, b"\n")
}

// The lines at the front of bytes that are always enough. Answers their length.
fn put_lengths(straights: u64, spirals: u64, arcs: u64, sum: u64, text: &mut [u8; MOST]) -> usize
    ensures lines { Wrote text.old text.new 0 result (length_list straights spirals arcs sum) }
    ensures within { IsPrefixLen result text.new }
{
    let at = put_named(text, 0, b"STRAIGHTS", straights);
    let at = put_named(text, at, b"SPIRALS", spirals);
    let at = put_named(text, at, b"ARCS", arcs);
    put_named(text, at, b"SUM", sum)
}

// Four lengths in µm as document 02's program of N9 prints them, at the front of `text`: a line each, with its name. Answers the length
// of the text, or refusal 16; a refusal leaves `text` as it was.
pub fn length_list(
    straights: u64,
    spirals: u64,
    arcs: u64,
    sum: u64,
    text: &mut [u8],
) -> Result<usize, Refusal>
    ensures answer { fill_reply_of result ≡ (fill unchecked (length_list straights spirals arcs sum) text.old).reply }
    ensures memory { text.new ≡ (fill unchecked (length_list straights spirals arcs sum) text.old).buffer }
{
    let mut lines = [0u8; MOST];
    let length = put_lengths(straights, spirals, arcs, sum, &mut lines);
    fill_front(&lines[..length], text)
}
