// The calls on a sheet: the reader, then the calculator, the search for a peg or the writer.
ghost use Rattle.std.specs.Prelude.{◌≡◌};
ghost use Rattle.refusals.specs.Filling.{fill_reply_of, fill};
ghost use Rattle.packed_sheet.specs.Reading.{read_checks};
ghost use Rattle.station_report.specs.Report.{sheet_checks};
ghost use Rattle.pokyandi.specs.Calls.{sheet_stations, sheet_peg_checks, sheet_peg, edition_reply};

use refusals::Refusal;

// The stations of a sheet at the front of `row`, or the first refusal of reader and calculator.
pub(crate) fn sheet_stations(sheet: &[u8], row: &mut [u64]) -> Result<usize, Refusal>
    ensures result_value { fill_reply_of result ≡ (fill (sheet_checks sheet.now) (sheet_stations sheet.now) row.old).reply }
    ensures row_after { row.new ≡ (fill (sheet_checks sheet.now) (sheet_stations sheet.now) row.old).buffer }
{
    let read = sheet::read(sheet)?;
    calculator::stations(read.line, row)
}

// The peg at a station of a sheet at the front of `peg`, or the first refusal of reader, calculator and search.
pub(crate) fn sheet_peg(sheet: &[u8], station: u64, peg: &mut [i64]) -> Result<usize, Refusal>
    ensures result_value { fill_reply_of result ≡ (fill (sheet_peg_checks sheet.now station) (sheet_peg sheet.now station) peg.old).reply }
    ensures peg_after { peg.new ≡ (fill (sheet_peg_checks sheet.now station) (sheet_peg sheet.now station) peg.old).buffer }
{
    let read = sheet::read(sheet)?;
    pegs::peg_numbers(read.line, station, peg)
}

// A sheet read and written again in its edition at the front of `bytes`, or the reader's refusal.
pub(crate) fn rewrite_sheet(sheet: &[u8], bytes: &mut [u8]) -> Result<usize, Refusal>
    ensures result_value { fill_reply_of result ≡ (fill (read_checks sheet.now) sheet.now bytes.old).reply }
    ensures bytes_after { bytes.new ≡ (fill (read_checks sheet.now) sheet.now bytes.old).buffer }
{
    let read = sheet::read(sheet)?;
    sheet::write(read.edition, read.line, bytes)
}

// The number of a sheet's edition as a count, or the reader's refusal.
pub(crate) fn sheet_edition(sheet: &[u8]) -> Result<usize, Refusal>
    ensures { fill_reply_of result ≡ edition_reply sheet.now }
{
    let read = sheet::read(sheet)?;
    Ok(read.edition as usize)
}
