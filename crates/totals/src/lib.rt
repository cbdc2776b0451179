// The totals of a line's straights, spirals and arcs, and their sum (document 02, N9).
#![tactic(auto)]

ghost use Rattle.std.specs.Prelude.{◌≡◌};
ghost use Rattle.totals.specs.Totals.{values_of, totals_by, totals_reply_of, totals_reply};

use calculator::{MeasuredLine, line_lengths};
use line::Line;
use refusals::Refusal;

// What the elements of a line add up to, by kind and all together, in µm.
#[derive(Clone, Copy)]
pub struct Totals {
    // Of the n + 1 straights.
    pub straights: u64,
    // Of the 2 × n spirals; empty ones count 0.
    pub spirals: u64,
    // Of the n arcs.
    pub arcs: u64,
    pub sum: u64,
}

// The totals of a line, curve by curve with the straight before it, then the last straight.
#[tactic(auto, using(stationing::proofs::Accepted::few))]
fn add_up(measured: MeasuredLine) -> Totals
    ensures { values_of result ≡ totals_by measured.entry.line.now }
{
    let n = measured.line.count;
    let mut straights = 0;
    let mut spirals = 0;
    let mut arcs = 0;
    // No `sum`: that each sum fits would need laws of its own.
    for i in 0..n {
        straights += measured.lengths.straights[i];
        spirals += 2000 * u64::from(measured.line.curves[i].spiral);
        arcs += measured.lengths.arcs[i];
    }
    straights += measured.lengths.straights[n];
    Totals {
        straights,
        spirals,
        arcs,
        sum: straights + spirals + arcs,
    }
}

// The totals of a line's straights, spirals and arcs by document 01's working rule, and their sum, which is the end of the line less its
// start, all in µm (document 02, N9). Or the first refusal: the calculator's 3 to 15 in its order. Any line is taken; unused entries and the
// sides of the curves change nothing.
#[tactic(auto, unfolding(crate::specs::Totals::totals_reply, refusals::specs::Replying::reply))]
pub fn line_totals(line: Line) -> Result<Totals, Refusal>
    ensures answer { totals_reply_of result ≡ totals_reply line }
{
    let lengths = line_lengths(line)?;
    Ok(add_up(MeasuredLine {
        line: &line,
        lengths: &lengths,
    }))
}
