// The converter of document 02, N6: a sheet of one edition to the sheet of the same line in the other.
#![tactic(auto)]

ghost use Rattle.std.specs.Prelude.{◌≡◌, ℕ, take};
ghost use Rattle.refusals.specs.Outcomes.{outcome_of};
ghost use Rattle.refusals.specs.Order.{outcome};
ghost use Rattle.refusals.specs.Filling.{filled, fill_reply_of};
ghost use Rattle.packed_sheet.specs.Reading.{read_edition};
ghost use Rattle.conversion.specs.Conversion.{other_number, asked_checks, converted, conversion};

use refusals::{Refusal, must};
use sheet::edition_numbered;

// The number of the other edition.
#[tactic(auto, unfolding(crate::specs::Conversion::other_number))]
fn other_number(number: u32) -> u32
    ensures { result ≡ other_number number }
{
    if number == 2 { 1 } else { 2 }
}

// The first of refusals 2 and 24 of an edition asked for, for a sheet of edition `number` whose line has that start, in mm.
#[tactic(auto, unfolding(crate::specs::Conversion::asked_checks))]
fn check_asked(number: u32, start: u32, asked: u32) -> Result<(), Refusal>
    ensures { outcome_of result ≡ outcome (asked_checks number start asked) }
{
    must(asked == other_number(number), Refusal::Edition)?;
    must(start <= edition_numbered(asked).greatest, Refusal::FarStart)
}

// The sheet of the same line in the other edition, which is asked for by its number, at the front of `bytes`. Answers its length in bytes, or
// the first refusal: the reader's 1 to 11, 2 where another edition is asked for, 24 where edition 1 is and the start is over 200,000,000 mm,
// then 16; a refusal leaves `bytes` as they were. Any bytes and any number are taken. What it writes is converted back to the same sheet.
#[tactic(auto, using(crate::proofs::WaysOut::converting))]
pub fn convert(sheet: &[u8], edition: u32, bytes: &mut [u8]) -> Result<usize, Refusal>
    ensures answer { fill_reply_of result ≡ (conversion sheet.now edition bytes.old).reply }
    ensures memory { bytes.new ≡ (conversion sheet.now edition bytes.old).buffer }
    ensures back { (count : ℕ) → fill_reply_of result ≡ filled count → converted (take count bytes.new) (read_edition sheet.now) ≡ sheet.now }
{
    let read = sheet::read(sheet)?;
    check_asked(read.edition, read.line.start, edition)?;
    sheet::write(edition, read.line, bytes)
}
