// The calls that read or write a line as numbers.
ghost use Rattle.std.specs.Prelude.{◌≡◌};
ghost use Rattle.refusals.specs.Outcomes.{passed};
ghost use Rattle.refusals.specs.Order.{outcome};
ghost use Rattle.refusals.specs.Filling.{fill_reply_of, fill};
ghost use Rattle.packed_sheet.specs.Reading.{read_checks, read_edition};
ghost use Rattle.coordinates.specs.FromPoints.{from_points_checks};
ghost use Rattle.pokyandi.specs.Calls.{sheet_numbers, told_checks, numbers_sheet, point_numbers};

use refusals::Refusal;

// The line of a sheet at the front of `numbers`, or the reader's refusal.
pub(crate) fn sheet_numbers(sheet: &[u8], numbers: &mut [u32]) -> Result<usize, Refusal>
    ensures result_value { fill_reply_of result ≡ (fill (read_checks sheet.now) (sheet_numbers sheet.now) numbers.old).reply }
    ensures numbers_after { numbers.new ≡ (fill (read_checks sheet.now) (sheet_numbers sheet.now) numbers.old).buffer }
    ensures sheet_value { outcome (read_checks sheet.now) ≡ passed → numbers_sheet (read_edition sheet.now) (sheet_numbers sheet.now) ≡ sheet.now }
{
    let read = sheet::read(sheet)?;
    line_numbers::write(read.line, numbers)
}

// The sheet of the line that the numbers spell, in the edition of a number, at the front of `bytes`, or the first refusal.
pub(crate) fn write_numbers(
    edition: u32,
    numbers: &[u32],
    bytes: &mut [u8],
) -> Result<usize, Refusal>
    ensures result_value { fill_reply_of result ≡ (fill (told_checks edition numbers.now) (numbers_sheet edition numbers.now) bytes.old).reply }
    ensures bytes_after { bytes.new ≡ (fill (told_checks edition numbers.now) (numbers_sheet edition numbers.now) bytes.old).buffer }
{
    sheet::check_edition(edition)?;
    line_numbers::check_count(numbers)?;
    sheet::write(edition, line_numbers::read(numbers), bytes)
}

// The line of points at the front of `numbers`, or the first refusal.
pub(crate) fn point_numbers(
    points: &[i64],
    curves: &[u32],
    speed: u32,
    crossfall: u32,
    start: u32,
    numbers: &mut [u32],
) -> Result<usize, Refusal>
    ensures result_value { fill_reply_of result ≡ (fill (from_points_checks speed crossfall start points.now curves.now) (point_numbers speed crossfall start points.now curves.now) numbers.old).reply }
    ensures numbers_after { numbers.new ≡ (fill (from_points_checks speed crossfall start points.now curves.now) (point_numbers speed crossfall start points.now curves.now) numbers.old).buffer }
{
    let line = points::line_from_points(points, curves, speed, crossfall, start)?;
    line_numbers::write(line, numbers)
}
