// The writer: the sheet of a line at the front of the caller's bytes.
ghost use Rattle.std.specs.Prelude.{◌≡◌, [], ◌∷◌, ℕ, ◌<◌, ◌≤◌, length, take, drop, IfOk};
ghost use Rattle.refusals.specs.Outcomes.{outcome_of};
ghost use Rattle.refusals.specs.Filling.{fill_reply_of};
ghost use Rattle.refusals.specs.Order.{outcome};
ghost use Rattle.line.specs.Ranges.{FieldsInRange};
ghost use Rattle.bits.specs.Bits.{packed, Fit};
ghost use Rattle.packed_sheet.specs.Layout.{numbered, head_widths, curve_widths, entry_widths, entry_at, byte_count};
ghost use Rattle.packed_sheet.specs.Writing.{head_values, curve_values, write_checks, sheet_in};
ghost use Rattle.packed_sheet.specs.EachStore.{Stores, StoreOf};
ghost use Rattle.sheet.specs.Handled.{Handled};
ghost use Rattle.sheet.specs.Pens.{told, position, Come};

use crate::layout::{
    COUNT, CROSSFALL, DEFLECTION, DISTANCE, SIDE, SIZE, SPEED, SPIRAL, START_AT, TURN, bit_count,
    byte_count, check_edition, edition_numbered,
};
use crate::pen::{Pen, join, put, store_rest};
use line::{Curve, Line, check_fields, side_bit};
use packed_sheet::Edition;
use refusals::{Refusal, must};

// A line that passes in an edition: it has a sheet.
#[derive(Drop)]
struct Passed<'a> {
    edition: Edition,
    line: &'a Line,
    ghost is_handled: { Handled edition },
    ghost in_range: { FieldsInRange edition.greatest line.now },
}

// The head's fields as one.
#[tactic(auto, using(packed_sheet::proofs::Fitting::head_fits), unfolding(bits::specs::Bits::packed))]
fn head_bits(passed: &Passed) -> u64
    ensures { result ≡ packed 0 (head_widths passed.now.edition) (head_values passed.now.edition passed.now.line.now) }
{
    let edition = passed.edition;
    let line = passed.line;
    let n = join(u64::from(edition.number), COUNT, line.count as u64);
    let v = join(n, SPEED, u64::from(line.speed));
    let e = join(v, CROSSFALL, u64::from(line.crossfall));
    join(e, edition.width, u64::from(line.start))
}

// A distance with side and deflection of the curve after it as one field.
#[tactic(auto, unfolding(bits::specs::Bits::packed))]
fn turn_bits(distance: u32, curve: Curve) -> u64
    requires { Fit entry_widths (distance ∷ curve_values curve) }
    ensures { result ≡ packed 0 (take 3 entry_widths) (take 3 (distance ∷ curve_values curve)) }
{
    let side = join(u64::from(distance), SIDE, u64::from(side_bit(curve.left)));
    join(side, DEFLECTION, u64::from(curve.deflection))
}

// The curve's radius and spiral as one field.
#[tactic(auto, unfolding(bits::specs::Bits::packed))]
fn size_bits(curve: Curve) -> u64
    requires { Fit curve_widths (curve_values curve) }
    ensures { result ≡ packed 0 (drop 2 curve_widths) (drop 2 (curve_values curve)) }
{
    join(u64::from(curve.radius), SPIRAL, u64::from(curve.spiral))
}

// The last distance, behind head and entries, with the zero bits that fill the last byte.
#[tactic(auto, using(packed_sheet::proofs::SoFar::stores_then))]
fn put_end(passed: &Passed, bytes: &mut [u8], pen: Pen)
    requires come { Come (told passed.now.edition passed.now.line.now) bytes.old pen × (position pen ≡ entry_at passed.now.edition passed.now.line.now.count) }
    ensures { Stores passed.now.edition passed.now.line.now pen.at bytes.old (byte_count passed.now.edition passed.now.line.now.count) bytes.new }
{
    let edition = passed.edition;
    let line = passed.line;
    let n = line.count;
    let fill = 8 * byte_count(edition, n) - bit_count(edition, n);
    let end = join(u64::from(line.distances[n]), fill, 0);
    let last = put(edition, line, bytes, pen, DISTANCE + fill, end);
    store_rest(edition, line, bytes, last);
}

// The sheet of a line that passes, at the front of bytes that are enough: head, distances and curves, the last distance and the fill.
#[tactic(auto, using(packed_sheet::proofs::SoFar::stores_then))]
fn write_sheet(passed: &Passed, bytes: &mut [u8])
    requires room { byte_count passed.now.edition passed.now.line.now.count ≤ length bytes.old }
    ensures stores { Stores passed.now.edition passed.now.line.now 0 bytes.old (byte_count passed.now.edition passed.now.line.now.count) bytes.new }
    ensures each { (k : ℕ) → k < byte_count passed.now.edition passed.now.line.now.count
        → StoreOf passed.now.edition passed.now.line.now bytes.old (byte_count passed.now.edition passed.now.line.now.count) bytes.new k }
{
    let edition = passed.edition;
    let line = passed.line;
    let mut pen = Pen {
        at: 0,
        pending: head_bits(passed),
        held: START_AT + edition.width,
    };
    for i in 0..line.count {
        let curve = line.curves[i];
        let turn = turn_bits(line.distances[i], curve);
        let turned = put(edition, line, bytes, pen, TURN, turn);
        pen = put(edition, line, bytes, turned, SIZE, size_bits(curve));
    }
    put_end(passed, bytes, pen);
}

// Refusal 2, then the first of the line's fields in the edition of the number; the edition of a line that passes.
#[tactic(auto, using(line::proofs::InRange::line_in_range), unfolding(packed_sheet::specs::Writing::write_checks))]
fn check_told(number: u32, line: Line) -> Result<Edition, Refusal>
    ensures answer { outcome_of result ≡ outcome (write_checks number line) }
    ensures told { IfOk result (λ edition. edition ≡ numbered number) }
    ensures in_range { IfOk result (λ edition. FieldsInRange edition.greatest line) }
{
    check_edition(number)?;
    let edition = edition_numbered(number);
    check_fields(edition.greatest, line)?;
    Ok(edition)
}

// The sheet of such a line, at the front of bytes that are enough. (The line comes by value and is lent from here on: lent in `write`, it would be
// copied before the checks.)
fn write_line(edition: Edition, line: Line, bytes: &mut [u8])
    requires handled { Handled edition }
    requires in_range { FieldsInRange edition.greatest line }
    requires room { byte_count edition line.count ≤ length bytes.old }
    ensures stores { Stores edition line 0 bytes.old (byte_count edition line.count) bytes.new }
    ensures each { (k : ℕ) → k < byte_count edition line.count → StoreOf edition line bytes.old (byte_count edition line.count) bytes.new k }
{
    let passed = Passed {
        edition,
        line: &line,
    };
    write_sheet(&passed, bytes);
}

// The sheet of a line in the edition of a number, at the front of `bytes`. Answers its length in bytes, or the first refusal: 2 where the
// edition is neither 1 nor 2, then in document 01's order 3 to 6, where 6 follows the edition, 8 to 11 in sheet order, then 16; a refusal
// leaves `bytes` as they were. Any number, any line and any bytes are taken; unused entries are ignored.
#[tactic(auto, using(crate::proofs::WaysOut::writing, crate::proofs::Handled::numbered_handled))]
pub fn write(edition: u32, line: Line, bytes: &mut [u8]) -> Result<usize, Refusal>
    ensures answer { fill_reply_of result ≡ (sheet_in edition line bytes.old).reply }
    ensures memory { bytes.new ≡ (sheet_in edition line bytes.old).buffer }
{
    let told = check_told(edition, line)?;
    let size = byte_count(told, line.count);
    must(size <= bytes.len(), Refusal::SmallBuffer)?;
    write_line(told, line, bytes);
    Ok(size)
}
