// The reader: the line of a sheet, or the first refusal.
ghost use Rattle.std.specs.Prelude.{◌≡◌, ◌+◌, ◌/◌, ◌<◌, ◌≤◌, leb, length, IfOk};
ghost use Rattle.refusals.specs.Outcomes.{passed, outcome_of, need};
ghost use Rattle.refusals.specs.Order.{outcome};
ghost use Rattle.bits.specs.Bits.{values_at};
ghost use Rattle.packed_sheet.specs.Layout.{numbered, curve_widths, byte_count};
ghost use Rattle.packed_sheet.specs.Reading.{head_of, curve_from, size_checks, frame_checks, line_of, edition_of, read_checks, read_line, read_edition};
ghost use Rattle.packed_sheet.specs.Writing.{sheet_of};
ghost use Rattle.sheet.specs.Handled.{Handled};

use crate::fields::{bits_at, last_bits, long_bits_at};
use crate::layout::{
    COUNT, CROSSFALL, DEFLECTION, DISTANCE, EDITION, RADIUS, SIDE, SPEED, SPIRAL, START_AT,
    bit_count, byte_count, edition_numbered, entry_at,
};
use line::{Curve, Line, blank_line, check_fields, check_head};
use packed_sheet::{Edition, Head};
use refusals::{Refusal, must};

// What a sheet holds: the number of its edition, and the line.
#[derive(Clone, Copy)]
pub struct SheetLine {
    pub edition: u32,
    pub line: Line,
}

// A sheet of at least seven bytes, the edition that it names, and the head that it has in that edition.
#[derive(Drop)]
struct Opened<'a> {
    sheet: &'a [u8],
    edition: Edition,
    head: Head,
    ghost has_head: { 7 ≤ length sheet.now },
    ghost is_named: { edition ≡ edition_of sheet.now },
    ghost is_handled: { Handled edition },
    ghost is_head: { head ≡ head_of edition sheet.now },
}

// The head of a sheet that is read as one of an edition.
#[tactic(auto, unfolding(packed_sheet::specs::Reading::head_of, bits::specs::Bits::values_at))]
fn read_head(edition: Edition, sheet: &[u8]) -> Head
    requires { Handled edition × (7 ≤ length sheet.now) }
    ensures { result ≡ head_of edition sheet.now }
{
    let count_at = EDITION;
    let speed_at = count_at + COUNT;
    let crossfall_at = speed_at + SPEED;
    Head {
        edition: bits_at(sheet, 0, EDITION),
        count: bits_at(sheet, count_at, COUNT) as usize,
        speed: bits_at(sheet, speed_at, SPEED),
        crossfall: bits_at(sheet, crossfall_at, CROSSFALL),
        start: long_bits_at(sheet, START_AT, edition.width),
    }
}

// The curve whose fields begin at bit `at`. Side and deflection are taken together.
fn curve_at(sheet: &[u8], at: usize) -> Curve
    requires { (at < 65536) × ((at + 43) / 8 + 4 ≤ length sheet.now) }
    ensures { result ≡ curve_from (values_at sheet.now at curve_widths) }
{
    let radius_at = at + SIDE + DEFLECTION;
    let spiral_at = radius_at + RADIUS;
    let turn = bits_at(sheet, at, SIDE + DEFLECTION);
    Curve {
        left: turn >> DEFLECTION == 1,
        deflection: turn % (1 << DEFLECTION),
        radius: bits_at(sheet, radius_at, RADIUS),
        spiral: bits_at(sheet, spiral_at, SPIRAL),
    }
}

impl<'a> Opened<'a> {
    // Refusal 1 of fewer than seven bytes, else the edition whose number the first bits have, and the head.
    #[tactic(auto, using(crate::proofs::Handled::edition_handled), unfolding(packed_sheet::specs::Reading::edition_of))]
    fn new(sheet: &'a [u8]) -> Result<Self, Refusal>
        ensures answer { outcome_of result ≡ need (leb 7 (length sheet.now)) 1 0 }
        ensures same { IfOk result (λ o. o.sheet.now ≡ sheet.now) }
    {
        must(7 <= sheet.len(), Refusal::Truncated)?;
        let edition = edition_numbered(bits_at(sheet, 0, EDITION));
        let head = read_head(edition, sheet);
        Ok(Opened {
            sheet,
            edition,
            head,
        })
    }

    // Refusals 1 and 7 of the sheet's length, and of the bits that fill it.
    #[tactic(auto, using(packed_sheet::proofs::Frames::count_below), unfolding(packed_sheet::specs::Reading::size_checks))]
    fn check_size(&self) -> Result<(), Refusal>
        ensures { outcome_of result ≡ outcome (size_checks self.now.edition self.now.sheet.now self.now.head.count) }
    {
        let bytes = byte_count(self.edition, self.head.count);
        must(bytes <= self.sheet.len(), Refusal::Truncated)?;
        let fill = 8 * bytes - bit_count(self.edition, self.head.count);
        must(
            self.sheet.len() <= bytes && last_bits(self.sheet, fill) == 0,
            Refusal::Trailing,
        )
    }

    // The first of refusals 2 to 7.
    #[tactic(auto, unfolding(packed_sheet::specs::Reading::frame_checks))]
    fn check_frame(&self) -> Result<(), Refusal>
        ensures { outcome_of result ≡ outcome (frame_checks self.now.edition self.now.sheet.now) }
    {
        let edition = self.edition;
        let head = self.head;
        must(head.edition == edition.number, Refusal::Edition)?;
        check_head(
            edition.greatest,
            head.count,
            head.speed,
            head.crossfall,
            head.start,
        )?;
        self.check_size()
    }

    // The line of a sheet that passes 1 to 7.
    #[tactic(auto, using(packed_sheet::proofs::LineSteps::line_begun, packed_sheet::proofs::LineSteps::entry_read, packed_sheet::proofs::LineSteps::last_read))]
    fn line(&self) -> Line
        requires few { self.now.head.count ≤ 64 }
        requires whole { length self.now.sheet.now ≡ byte_count self.now.edition self.now.head.count }
        ensures { result ≡ line_of self.now.edition self.now.sheet.now }
    {
        let n = self.head.count;
        let mut line = blank_line();
        line.speed = self.head.speed;
        line.crossfall = self.head.crossfall;
        line.start = self.head.start;
        line.count = n;
        for i in 0..n {
            let at = entry_at(self.edition, i);
            line.distances[i] = bits_at(self.sheet, at, DISTANCE);
            line.curves[i] = curve_at(self.sheet, at + DISTANCE);
        }
        line.distances[n] = bits_at(self.sheet, entry_at(self.edition, n), DISTANCE);
        line
    }
}

// The edition and the line of a sheet, its unused entries zero, or the first refusal in document 01's order: 1 (seven bytes), 2, 3, 4, 5, 6,
// which follows the edition, 1 (full length), 7, then 8 to 11 in sheet order. Any bytes are taken. A sheet that is not refused is the sheet
// of its line in its edition.
#[tactic(auto, using(crate::proofs::WaysOut::reading))]
pub fn read(sheet: &[u8]) -> Result<SheetLine, Refusal>
    ensures answer { outcome_of result ≡ outcome (read_checks sheet.now) }
    ensures edition { IfOk result (λ r. r.edition ≡ read_edition sheet.now) }
    ensures line { IfOk result (λ r. r.line ≡ read_line sheet.now) }
    ensures again { IfOk result (λ r. sheet_of (numbered r.edition) r.line ≡ sheet.now) }
{
    let opened = Opened::new(sheet)?;
    opened.check_frame()?;
    let line = opened.line();
    check_fields(opened.edition.greatest, line)?;
    Ok(SheetLine {
        edition: opened.edition.number,
        line,
    })
}
