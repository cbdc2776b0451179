// The row of stations, in µm, at the front of the caller's numbers.
ghost use Rattle.std.specs.Prelude.{◌≡◌, ◌++◌, ◌+◌, ◌≤◌, length, take, drop};
ghost use Rattle.refusals.specs.Filling.{fill_reply_of, fill};
ghost use Rattle.refusals.specs.Order.{unchecked};
ghost use Rattle.stationing.specs.Stations.{station_row};
ghost use Rattle.stationing.specs.Answer.{stations_in};
ghost use Rattle.stationing.specs.Arrays.{four_from};

use crate::MeasuredLine;
use crate::lengths::line_lengths;
use line::Line;
use refusals::Refusal;

// TS, SC, CS and ST of a curve after the station `former`, stored from `at` on; ST is returned.
fn store_curve(row: &mut [u64], at: usize, former: u64, straight: u64, spiral: u64, arc: u64) -> u64
    requires at_in_bounds { at + 4 ≤ length row.old }
    requires former_bound { (former ≤ 1000000000000000) × (straight ≤ 20000000000) × (spiral ≤ 500000000) × (arc ≤ 10471975510) }
    ensures value { result ≡ former + straight + spiral + arc + spiral }
    ensures row_after { row.new ≡ take at row.old ++ four_from former straight spiral arc ++ drop (at + 4) row.old }
{
    let ts = former + straight;
    let sc = ts + spiral;
    let cs = sc + arc;
    let st = cs + spiral;
    row[at..at + 4].copy_from_slice(&[ts, sc, cs, st]);
    st
}

impl MeasuredLine<'_> {
    // Refusal 16, or the row.
    #[tactic(auto, unfolding(refusals::specs::Filling::fill, refusals::specs::Filling::with_room), using(stationing::proofs::Accepted::few, stationing::proofs::RowCount::row_count))]
    fn store(self, row: &mut [u64]) -> Result<usize, Refusal>
        ensures answer { fill_reply_of result ≡ (fill unchecked (station_row self.entry.line.now) row.old).reply }
        ensures memory { row.new ≡ (fill unchecked (station_row self.entry.line.now) row.old).buffer }
    {
        let n = self.line.count;
        let count = 4 * n + 1;
        if row.len() < count {
            return Err(Refusal::SmallBuffer);
        }
        let mut station = 1000 * u64::from(self.line.start);
        for i in 0..n {
            let spiral = 1000 * u64::from(self.line.curves[i].spiral);
            station = store_curve(
                row,
                4 * i,
                station,
                self.lengths.straights[i],
                spiral,
                self.lengths.arcs[i],
            );
        }
        row[4 * n] = station + self.lengths.straights[n];
        Ok(count)
    }
}

// The stations of a line by document 01's working rule (after source document 002, with document 02's changes), in µm: TS, SC, CS and ST
// of each curve in order, then the end, at the front of `row`. Answers how many there are, 4 × n + 1, or the first refusal in document 01's
// order: 3 to 6, 8 to 11, then 12, 13, 14 curve by curve, then 15 by ascending distance, then 16; a refusal leaves `row` as
// it was. Any line and any row are taken; unused entries and the sides of the curves change nothing.
#[tactic(auto, unfolding(stationing::specs::Answer::stations_in, refusals::specs::Filling::fill, refusals::specs::Filling::with_room))]
pub fn stations(line: Line, row: &mut [u64]) -> Result<usize, Refusal>
    ensures answer { fill_reply_of result ≡ (stations_in line row.old).reply }
    ensures memory { row.new ≡ (stations_in line row.old).buffer }
{
    let lengths = line_lengths(line)?;
    let measured = MeasuredLine {
        line: &line,
        lengths: &lengths,
    };
    measured.store(row)
}
