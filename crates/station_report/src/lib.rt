// A sheet's stations as text: reader, calculator and report, one after the other (document 01, "The station program").
#![tactic(auto)]

ghost use Rattle.std.specs.Prelude.{◌≡◌, length, take};
ghost use Rattle.io.specs.Counts.{IsPrefixLen};
ghost use Rattle.refusals.specs.Order.{unchecked};
ghost use Rattle.refusals.specs.Filling.{fill_reply_of, fill};
ghost use Rattle.station_report.specs.Report.{line_text, sheet_text, whole_text};

use line::Line;
use refusals::Refusal;

// The stations of a line, or the calculator's refusal, as text at the front of `text`; 257 numbers hold any line's stations.
#[tactic(auto, using(crate::proofs::Texts::counted_within, crate::proofs::Texts::counted_text, crate::proofs::Texts::refused_text))]
fn report_line(line: Line, text: &mut [u8]) -> Result<usize, Refusal>
    ensures answer { fill_reply_of result ≡ (fill unchecked (line_text line) text.old).reply }
    ensures memory { text.new ≡ (fill unchecked (line_text line) text.old).buffer }
{
    let mut row = [0u64; 257];
    match calculator::stations(line, &mut row) {
        Ok(count) => report::station_list(&row[..count], text),
        Err(refusal) => report::refusal_line(refusal, text),
    }
}

// What the station program prints for the bytes of a sheet, at the front of `text`: the list of stations, in metres with six
// decimals, or the line of the first refusal of reader and calculator. Any bytes are taken. Answers the length of the text, or
// refusal 16, which leaves `text` as it was.
#[tactic(auto, using(crate::proofs::Texts::read_text, crate::proofs::Texts::unread_text))]
pub fn report_sheet(sheet: &[u8], text: &mut [u8]) -> Result<usize, Refusal>
    ensures answer { fill_reply_of result ≡ (fill unchecked (sheet_text sheet.now) text.old).reply }
    ensures memory { text.new ≡ (fill unchecked (sheet_text sheet.now) text.old).buffer }
{
    match sheet::read(sheet) {
        Ok(read) => report_line(read.line, text),
        Err(refusal) => report::refusal_line(refusal, text),
    }
}

// So many bytes hold the text of every sheet (`proofs/Fits.antt`).
pub const ROOM: usize = 5417;

// The text of a sheet: the first `length` bytes of `text`; those behind them are zero.
#[derive(Clone, Copy)]
pub struct Report {
    pub text: [u8; ROOM],
    pub length: usize,
    pub ghost within: { IsPrefixLen length text },
}

impl Report {
    // The text alone.
    pub fn as_slice(&self) -> &[u8]
        ensures { result.now ≡ take self.now.length self.now.text }
    {
        &self.text[..self.length]
    }
}

// What the station program prints for the bytes of a sheet. Any bytes are taken, and 16 never comes.
pub fn whole_report(sheet: &[u8]) -> Report
    ensures text { result.text ≡ whole_text sheet.now }
    ensures size { result.length ≡ length (sheet_text sheet.now) }
{
    let mut text = [0u8; ROOM];
    let length = report_sheet(sheet, &mut text).unwrap_or(0);
    Report { text, length }
}
