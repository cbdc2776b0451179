// The library as C and Rust call it: the header is `include/pokyandi.h`. Each call is the library's (crates/pokyandi), with the same contract.
#![tactic(auto)]

ghost use Rattle.std.specs.Prelude.{◌≡◌, ◌^◌, ◌<◌, take};
ghost use Rattle.refusals.specs.Order.{unchecked};
ghost use Rattle.refusals.specs.Filling.{fill};
ghost use Rattle.packed_sheet.specs.Reading.{read_checks, read_edition};
ghost use Rattle.conversion.specs.Conversion.{converted, conversion};
ghost use Rattle.elements.specs.Answer.{element_checks};
ghost use Rattle.spiral_table.specs.UnitSpiralTable.{table_in};
ghost use Rattle.coordinates.specs.FromPoints.{from_points_checks};
ghost use Rattle.profile_numbers.specs.Numbers.{height_numbers, numbers_checks as profile_numbers_checks};
ghost use Rattle.station_report.specs.Report.{sheet_checks, sheet_text};
ghost use Rattle.pokyandi.specs.Answers.{answer_number};
ghost use Rattle.pokyandi.specs.Calls.{sheet_stations, sheet_peg_checks, sheet_peg, check_reply, sheet_numbers, told_checks, numbers_sheet, edition_reply, point_numbers, element_numbers, unit_spiral_in, version};

#[unsafe(no_mangle)]
pub extern "C" fn pokyandi_stations(sheet: &[u8], row: &mut [u64]) -> u64
    ensures answer { result ≡ answer_number (fill (sheet_checks sheet.now) (sheet_stations sheet.now) row.old).reply }
    ensures memory { row.new ≡ (fill (sheet_checks sheet.now) (sheet_stations sheet.now) row.old).buffer }
{
    pokyandi::pokyandi_stations(sheet, row)
}

#[unsafe(no_mangle)]
pub extern "C" fn pokyandi_check(sheet: &[u8]) -> u64
    ensures answer { result ≡ answer_number (check_reply sheet.now) }
{
    pokyandi::pokyandi_check(sheet)
}

#[unsafe(no_mangle)]
pub extern "C" fn pokyandi_peg(sheet: &[u8], station: u64, peg: &mut [i64]) -> u64
    ensures answer { result ≡ answer_number (fill (sheet_peg_checks sheet.now station) (sheet_peg sheet.now station) peg.old).reply }
    ensures memory { peg.new ≡ (fill (sheet_peg_checks sheet.now station) (sheet_peg sheet.now station) peg.old).buffer }
{
    pokyandi::pokyandi_peg(sheet, station, peg)
}

#[unsafe(no_mangle)]
pub extern "C" fn pokyandi_rewrite(sheet: &[u8], bytes: &mut [u8]) -> u64
    ensures answer { result ≡ answer_number (fill (read_checks sheet.now) sheet.now bytes.old).reply }
    ensures memory { bytes.new ≡ (fill (read_checks sheet.now) sheet.now bytes.old).buffer }
{
    pokyandi::pokyandi_rewrite(sheet, bytes)
}

#[unsafe(no_mangle)]
pub extern "C" fn pokyandi_read(sheet: &[u8], line: &mut [u32]) -> u64
    ensures answer { result ≡ answer_number (fill (read_checks sheet.now) (sheet_numbers sheet.now) line.old).reply }
    ensures memory { line.new ≡ (fill (read_checks sheet.now) (sheet_numbers sheet.now) line.old).buffer }
    ensures again { result < 2 ^ 32 → numbers_sheet (read_edition sheet.now) (take result line.new) ≡ sheet.now }
{
    pokyandi::pokyandi_read(sheet, line)
}

#[unsafe(no_mangle)]
pub extern "C" fn pokyandi_write(edition: u32, line: &[u32], bytes: &mut [u8]) -> u64
    ensures answer { result ≡ answer_number (fill (told_checks edition line.now) (numbers_sheet edition line.now) bytes.old).reply }
    ensures memory { bytes.new ≡ (fill (told_checks edition line.now) (numbers_sheet edition line.now) bytes.old).buffer }
{
    pokyandi::pokyandi_write(edition, line, bytes)
}

#[unsafe(no_mangle)]
pub extern "C" fn pokyandi_edition(sheet: &[u8]) -> u64
    ensures answer { result ≡ answer_number (edition_reply sheet.now) }
{
    pokyandi::pokyandi_edition(sheet)
}

#[unsafe(no_mangle)]
pub extern "C" fn pokyandi_convert(sheet: &[u8], edition: u32, bytes: &mut [u8]) -> u64
    ensures answer { result ≡ answer_number (conversion sheet.now edition bytes.old).reply }
    ensures memory { bytes.new ≡ (conversion sheet.now edition bytes.old).buffer }
    ensures back { result < 2 ^ 32 → converted (take result bytes.new) (read_edition sheet.now) ≡ sheet.now }
{
    pokyandi::pokyandi_convert(sheet, edition, bytes)
}

#[unsafe(no_mangle)]
pub extern "C" fn pokyandi_from_points(
    speed: u32,
    crossfall: u32,
    start: u32,
    points: &[i64],
    curves: &[u32],
    line: &mut [u32],
) -> u64
    ensures answer { result ≡ answer_number (fill (from_points_checks speed crossfall start points.now curves.now) (point_numbers speed crossfall start points.now curves.now) line.old).reply }
    ensures memory { line.new ≡ (fill (from_points_checks speed crossfall start points.now curves.now) (point_numbers speed crossfall start points.now curves.now) line.old).buffer }
{
    pokyandi::pokyandi_from_points(speed, crossfall, start, points, curves, line)
}

#[unsafe(no_mangle)]
pub extern "C" fn pokyandi_elements(
    deflection: u32,
    radius: u32,
    spiral: u32,
    numbers: &mut [u64],
) -> u64
    ensures answer { result ≡ answer_number (fill (element_checks deflection radius spiral) (element_numbers deflection radius spiral) numbers.old).reply }
    ensures memory { numbers.new ≡ (fill (element_checks deflection radius spiral) (element_numbers deflection radius spiral) numbers.old).buffer }
{
    pokyandi::pokyandi_elements(deflection, radius, spiral, numbers)
}

#[unsafe(no_mangle)]
pub extern "C" fn pokyandi_unit_spiral(thousandth: u32, length: u32, offsets: &mut [u64]) -> u64
    ensures answer { result ≡ answer_number (unit_spiral_in thousandth length offsets.old).reply }
    ensures memory { offsets.new ≡ (unit_spiral_in thousandth length offsets.old).buffer }
{
    pokyandi::pokyandi_unit_spiral(thousandth, length, offsets)
}

#[unsafe(no_mangle)]
pub extern "C" fn pokyandi_unit_spiral_table(ratios: &mut [u64]) -> u64
    ensures answer { result ≡ answer_number (table_in ratios.old).reply }
    ensures memory { ratios.new ≡ (table_in ratios.old).buffer }
{
    pokyandi::pokyandi_unit_spiral_table(ratios)
}

#[unsafe(no_mangle)]
pub extern "C" fn pokyandi_height(profile: &[i64], station: u64, height: &mut [i64]) -> u64
    ensures answer { result ≡ answer_number (fill (profile_numbers_checks profile.now station) (height_numbers profile.now station) height.old).reply }
    ensures memory { height.new ≡ (fill (profile_numbers_checks profile.now station) (height_numbers profile.now station) height.old).buffer }
{
    pokyandi::pokyandi_height(profile, station, height)
}

#[unsafe(no_mangle)]
pub extern "C" fn pokyandi_text(sheet: &[u8], text: &mut [u8]) -> u64
    ensures answer { result ≡ answer_number (fill unchecked (sheet_text sheet.now) text.old).reply }
    ensures memory { text.new ≡ (fill unchecked (sheet_text sheet.now) text.old).buffer }
{
    pokyandi::pokyandi_text(sheet, text)
}

#[unsafe(no_mangle)]
pub extern "C" fn pokyandi_version() -> u64
    ensures answer { result ≡ version }
{
    pokyandi::pokyandi_version()
}
