// The lines of a text, one after the other.
ghost use Rattle.std.specs.Prelude.{◌≡◌, List, ◌++◌, ℕ, ◌+◌, ◌≤◌, ◌<◌, leb, length};
ghost use Rattle.refusals.specs.Order.{unchecked};
ghost use Rattle.refusals.specs.Filling.{fill_reply_of, fill};
ghost use Rattle.report.specs.Text.{lines_of};
ghost use Rattle.report.specs.Pieces.{Wrote};

use crate::numbers::put;
use refusals::Refusal;

// The lines of a text.
pub(crate) trait Lines {
    ghost count: { Self → ℕ };

    ghost line: { Self → ℕ → List ℕ };

    // How many there are.
    fn how_many(&self) -> usize
        ensures { result ≡ count self.now };

    // How long the line of number i is.
    fn length_of(&self, i: usize) -> usize
        requires { i < count self.now }
        ensures { result ≡ length (line self.now i) };

    // The line of number i, from index `at` on. Answers where it ends.
    fn put_line(&self, i: usize, text: &mut [u8], at: usize) -> usize
        requires i_in_bounds { i < count self.now }
        requires line_in_bounds { at + length (line self.now i) ≤ length text.old }
        ensures { Wrote text.old text.new at result (line self.now i) };
}

// Whether the lines take at most `room` bytes behind the first `start`.
#[tactic(auto, unfolding(crate::specs::Text::lines_of))]
fn lines_fit<L: Lines>(start: usize, lines: &L, room: usize) -> bool
    ensures { result ≡ leb (start + length (lines_of (L.line lines.now) (L.count lines.now))) room }
{
    if room < start {
        return false;
    }
    let mut left = room - start;
    for i in 0..lines.how_many() {
        let length = lines.length_of(i);
        if left < length {
            return false;
        }
        left -= length;
    }
    true
}

// The lines from index `start` on, where the bytes are enough. Answers where they end.
#[tactic(auto, using(crate::proofs::Pieces::wrote_none), unfolding(crate::specs::Text::lines_of))]
fn put_lines<L: Lines>(lines: &L, text: &mut [u8], start: usize) -> usize
    requires { start + length (lines_of (L.line lines.now) (L.count lines.now)) ≤ length text.old }
    ensures { Wrote text.old text.new start result (lines_of (L.line lines.now) (L.count lines.now)) }
{
    let mut at = start;
    for i in 0..lines.how_many() {
        at = lines.put_line(i, text, at);
    }
    at
}

// A heading and the lines after it at the front of `text`. Answers their length, or refusal 16, which leaves `text` as it was.
pub(crate) fn fill_lines<L: Lines>(
    heading: &[u8],
    lines: &L,
    text: &mut [u8],
) -> Result<usize, Refusal>
    ensures answer { fill_reply_of result ≡ (fill unchecked (heading.now ++ lines_of (L.line lines.now) (L.count lines.now)) text.old).reply }
    ensures memory { text.new ≡ (fill unchecked (heading.now ++ lines_of (L.line lines.now) (L.count lines.now)) text.old).buffer }
{
    if !lines_fit(heading.len(), lines, text.len()) {
        return Err(Refusal::SmallBuffer);
    }
    let at = put(text, 0, heading);
    Ok(put_lines(lines, text, at))
}
