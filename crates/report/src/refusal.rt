// The line of a refusal.
ghost use Rattle.std.specs.Prelude.{◌≡◌, ◌+◌, ◌≤◌, length};
ghost use Rattle.io.specs.Counts.{IsPrefixLen};
ghost use Rattle.refusals.specs.Table.{number_of, place_of};
ghost use Rattle.refusals.specs.Order.{unchecked};
ghost use Rattle.refusals.specs.Filling.{fill_reply_of, fill};
ghost use Rattle.report.specs.Text.{refusal_line};
ghost use Rattle.report.specs.Pieces.{Wrote};

use crate::numbers::{put, put_decimal};
use refusals::{Refusal, fill_front};

// So many bytes hold the line of any refusal: a number and a place have at most 20 digits each.
const MOST: usize = 50;

// The line at the front of bytes that are always enough. Answers its length.
#[tactic(auto, using(crate::proofs::Lengths::lengths), unfolding(crate::specs::Numbers::ascii))]
fn put_refusal(number: u64, place: u64, text: &mut [u8; MOST]) -> usize
    ensures line { Wrote text.old text.new 0 result (refusal_line number place) }
    ensures within { IsPrefixLen result text.new }
{
    let at = put(text, 0, b"REFUSED ");
    let at = put_decimal(text, at, number, b" ");
    put_decimal(text, at, place, b"\n")
}

// A refusal as document 01's programs print it, at the front of `text`: `REFUSED`, number, place. Answers the length of the text,
// or refusal 16; a refusal leaves `text` as it was.
pub fn refusal_line(refusal: Refusal, text: &mut [u8]) -> Result<usize, Refusal>
    ensures answer { fill_reply_of result ≡ (fill unchecked (refusal_line (number_of refusal) (place_of refusal)) text.old).reply }
    ensures memory { text.new ≡ (fill unchecked (refusal_line (number_of refusal) (place_of refusal)) text.old).buffer }
{
    let mut line = [0u8; MOST];
    let length = put_refusal(
        u64::from(refusal.number()),
        u64::from(refusal.place()),
        &mut line,
    );
    fill_front(&line[..length], text)
}
