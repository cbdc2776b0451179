// The library for callers in C and Rust, whose header is `include/pokyandi.h`. An answer is one number: the count of what was
// written at the front of the caller's buffer, or, from bit 32 on, the number of a refusal, with its place below.
#![tactic(auto)]

mod answer;
mod curves;
mod lines;
mod sheets;

ghost use Rattle.std.specs.Prelude.{◌≡◌, ◌^◌, ◌<◌, take};
ghost use Rattle.refusals.specs.Order.{unchecked};
ghost use Rattle.refusals.specs.Filling.{fill};
ghost use Rattle.packed_sheet.specs.Reading.{read_checks, read_edition};
ghost use Rattle.conversion.specs.Conversion.{converted, conversion};
ghost use Rattle.elements.specs.Answer.{element_checks};
ghost use Rattle.spiral_table.specs.UnitSpiralTable.{table_in};
ghost use Rattle.coordinates.specs.FromPoints.{from_points_checks};
ghost use Rattle.profile_numbers.specs.Numbers.{height_numbers, numbers_checks as profile_numbers_checks};
ghost use Rattle.station_report.specs.Report.{sheet_checks, sheet_text};
ghost use Rattle.pokyandi.specs.Answers.{answer_number};
ghost use Rattle.pokyandi.specs.Calls.{sheet_stations, sheet_peg_checks, sheet_peg, check_reply, sheet_numbers, told_checks, numbers_sheet, edition_reply, point_numbers, element_numbers, unit_spiral_in, version};

use crate::answer::answer_number;
use crate::curves::{curve_numbers, end_numbers};
use crate::lines::{point_numbers, sheet_numbers, write_numbers};
use crate::sheets::{rewrite_sheet, sheet_edition, sheet_peg, sheet_stations};

// The stations of a sheet in µm, TS, SC, CS and ST of each curve in order, then the end: 4 × n + 1 numbers at the front of `row`.
// Refusals 1 to 15, the reader's and then the calculator's, then 16.
pub fn pokyandi_stations(sheet: &[u8], row: &mut [u64]) -> u64
    ensures answer { result ≡ answer_number (fill (sheet_checks sheet.now) (sheet_stations sheet.now) row.old).reply }
    ensures memory { row.new ≡ (fill (sheet_checks sheet.now) (sheet_stations sheet.now) row.old).buffer }
{
    answer_number(sheet_stations(sheet, row))
}

// The same checks without a row: how many stations the sheet has, or the first of refusals 1 to 15.
pub fn pokyandi_check(sheet: &[u8]) -> u64
    ensures answer { result ≡ answer_number (check_reply sheet.now) }
{
    let mut row = [0u64; 257];
    answer_number(sheet_stations(sheet, &mut row))
}

// The element under a station in µm (document 02, N1): five numbers at the front of `peg`, kind (0 straight, 1 spiral in, 2 arc, 3 spiral
// out), number (of the straight's distance, 0 to n, or of the curve, 1 to n), length from the element's beginning (on the spiral out back
// from ST), and x and y, on a spiral within 4 µm of the exact ones, y below zero on a left curve, elsewhere 0. Refusals 1 to 15, then 17 for
// a station outside the line, then 16.
pub fn pokyandi_peg(sheet: &[u8], station: u64, peg: &mut [i64]) -> u64
    ensures answer { result ≡ answer_number (fill (sheet_peg_checks sheet.now station) (sheet_peg sheet.now station) peg.old).reply }
    ensures memory { peg.new ≡ (fill (sheet_peg_checks sheet.now station) (sheet_peg sheet.now station) peg.old).buffer }
{
    answer_number(sheet_peg(sheet, station, peg))
}

// A sheet read and written again in its edition, its own bytes, at the front of `bytes`. Refusals 1 to 11, then 16.
pub fn pokyandi_rewrite(sheet: &[u8], bytes: &mut [u8]) -> u64
    ensures answer { result ≡ answer_number (fill (read_checks sheet.now) sheet.now bytes.old).reply }
    ensures memory { bytes.new ≡ (fill (read_checks sheet.now) sheet.now bytes.old).buffer }
{
    answer_number(rewrite_sheet(sheet, bytes))
}

// The line of a sheet as 5 + 5 × n numbers at the front of `line`: n, V, e, start, distance 0, then side, A, R, L and the distance after
// it for each curve. Refusals 1 to 11, then 16. The sheet of the numbers that it counts, in the sheet's edition, is the sheet.
pub fn pokyandi_read(sheet: &[u8], line: &mut [u32]) -> u64
    ensures answer { result ≡ answer_number (fill (read_checks sheet.now) (sheet_numbers sheet.now) line.old).reply }
    ensures memory { line.new ≡ (fill (read_checks sheet.now) (sheet_numbers sheet.now) line.old).buffer }
    ensures again { result < 2 ^ 32 → numbers_sheet (read_edition sheet.now) (take result line.new) ≡ sheet.now }
{
    answer_number(sheet_numbers(sheet, line))
}

// The sheet of such a line in the edition of a number, at the front of `bytes`. Refusal 2 where that is neither 1 nor 2, 3 where n is over 64
// or there are other than 5 + 5 × n numbers, 4 to 6, where 6 follows the edition, 8 to 11 in sheet order, 9 for a side other than 0 and 1 too,
// then 16.
pub fn pokyandi_write(edition: u32, line: &[u32], bytes: &mut [u8]) -> u64
    ensures answer { result ≡ answer_number (fill (told_checks edition line.now) (numbers_sheet edition line.now) bytes.old).reply }
    ensures memory { bytes.new ≡ (fill (told_checks edition line.now) (numbers_sheet edition line.now) bytes.old).buffer }
{
    answer_number(write_numbers(edition, line, bytes))
}

// The edition of a sheet, 1 or 2, as the count (document 02, N6). Refusals 1 to 11.
pub fn pokyandi_edition(sheet: &[u8]) -> u64
    ensures answer { result ≡ answer_number (edition_reply sheet.now) }
{
    answer_number(sheet_edition(sheet))
}

// The sheet of the same line in the other edition (document 02, N6), at the front of `bytes`. Refusals 1 to 11, 2 where another edition is asked
// for than the other one, 24 where edition 1 is and the start is over 200,000,000 mm, then 16. What it counts is converted back to the sheet.
pub fn pokyandi_convert(sheet: &[u8], edition: u32, bytes: &mut [u8]) -> u64
    ensures answer { result ≡ answer_number (conversion sheet.now edition bytes.old).reply }
    ensures memory { bytes.new ≡ (conversion sheet.now edition bytes.old).buffer }
    ensures back { result < 2 ^ 32 → converted (take result bytes.new) (read_edition sheet.now) ≡ sheet.now }
{
    answer_number(conversion::convert(sheet, edition, bytes))
}

// The line of points that are given by coordinates (document 02, N2), as `pokyandi_read` gives it, at the front of `line`. `points` are east
// and north of each point in turn, in whole mm, `curves` radius and spiral of each PI in turn, in mm. Refusals 3 (other than two numbers for
// each point and each PI, or other than 2 to 66 points), 18, 8 by ascending distance, 20 and 19 point by point, 3 to 15 of the line, then 16.
pub fn pokyandi_from_points(
    speed: u32,
    crossfall: u32,
    start: u32,
    points: &[i64],
    curves: &[u32],
    line: &mut [u32],
) -> u64
    ensures answer { result ≡ answer_number (fill (from_points_checks speed crossfall start points.now curves.now) (point_numbers speed crossfall start points.now curves.now) line.old).reply }
    ensures memory { line.new ≡ (fill (from_points_checks speed crossfall start points.now curves.now) (point_numbers speed crossfall start points.now curves.now) line.old).buffer }
{
    answer_number(point_numbers(points, curves, speed, crossfall, start, line))
}

// The elements of one curve in µm, X, Y, k, p, D and TT: six numbers at the front of `numbers`. The deflection is in seconds of
// arc, radius and spiral in mm. Refusals 9, 10, 11, 14, then 16, all with place 0.
pub fn pokyandi_elements(deflection: u32, radius: u32, spiral: u32, numbers: &mut [u64]) -> u64
    ensures answer { result ≡ answer_number (fill (element_checks deflection radius spiral) (element_numbers deflection radius spiral) numbers.old).reply }
    ensures memory { numbers.new ≡ (fill (element_checks deflection radius spiral) (element_numbers deflection radius spiral) numbers.old).buffer }
{
    answer_number(curve_numbers(deflection, radius, spiral, numbers))
}

// X and Y of a spiral of a length in mm, at an angle in thousandths of a radian, in µm, from the table of the unit spiral (document 02, N8): two
// numbers at the front of `offsets`. Refusals 25 for a thousandth above 500, 11 for a length above 500,000, then 16, all with place 0.
pub fn pokyandi_unit_spiral(thousandth: u32, length: u32, offsets: &mut [u64]) -> u64
    ensures answer { result ≡ answer_number (unit_spiral_in thousandth length offsets.old).reply }
    ensures memory { offsets.new ≡ (unit_spiral_in thousandth length offsets.old).buffer }
{
    answer_number(end_numbers(thousandth, length, offsets))
}

// The table itself at the front of `ratios`: x and y of the spiral of length one, at scale 10⁹, at 0, 1, .. 500 thousandths of a radian, 1,002
// numbers. Refusal 16.
pub fn pokyandi_unit_spiral_table(ratios: &mut [u64]) -> u64
    ensures answer { result ≡ answer_number (table_in ratios.old).reply }
    ensures memory { ratios.new ≡ (table_in ratios.old).buffer }
{
    answer_number(spiral_table::table_numbers(ratios))
}

// The height of a profile at a station in mm (document 02, N5), in mm: one number at the front of `height`. The profile is V, start, start height and
// first grade, then station, outgoing grade and curve length of each vertex, in mm and millionths. Refusals 3 (other than 4 + 3 × n numbers, or over
// 32 vertices), 4, 6, then 22, 21 and 23, each vertex by vertex, then 17 for a station outside the profile, then 16.
pub fn pokyandi_height(profile: &[i64], station: u64, height: &mut [i64]) -> u64
    ensures answer { result ≡ answer_number (fill (profile_numbers_checks profile.now station) (height_numbers profile.now station) height.old).reply }
    ensures memory { height.new ≡ (fill (profile_numbers_checks profile.now station) (height_numbers profile.now station) height.old).buffer }
{
    answer_number(profile_numbers::height(profile, station, height))
}

// What the program `stations` prints for these bytes, of which it reads 707 at most, at the front of `text`. Refusal 16.
pub fn pokyandi_text(sheet: &[u8], text: &mut [u8]) -> u64
    ensures answer { result ≡ answer_number (fill unchecked (sheet_text sheet.now) text.old).reply }
    ensures memory { text.new ≡ (fill unchecked (sheet_text sheet.now) text.old).buffer }
{
    answer_number(station_report::report_sheet(sheet, text))
}

// The version of the library: major × 1,000,000 + minor × 1,000 + patch.
pub fn pokyandi_version() -> u64
    ensures answer { result ≡ version }
{
    9000
}
