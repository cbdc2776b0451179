// The table of the spiral of length one, and the look-up in it (document 02, N8): ratios at scale 10⁹, lengths in mm, X and Y in µm.
#![tactic(auto)]

mod table;

ghost use Rattle.std.specs.Prelude.{◌≡◌, ◌≤◌, pos};
ghost use Rattle.refusals.specs.Filling.{fill_reply_of};
ghost use Rattle.elements.specs.WorkingRule.{unit_x, unit_y};
ghost use Rattle.elements.specs.SpiralPoint.{point_reply_of};
ghost use Rattle.spiral_table.specs.UnitSpiralTable.{row_angle, unit_spiral_table, table_in};
ghost use Rattle.spiral_table.specs.LookUp.{look_up_reply};

use crate::table::TABLE;
use elements::{SpiralPoint, scaled_length};
use refusals::{Refusal, must};

// How many numbers the table has.
pub const TABLE_NUMBERS: usize = 1002;

// A row of the table.
#[derive(Clone, Copy)]
struct Row {
    x: u32,
    y: u32,
}

// The whole table, which the rule gives.
fn entries() -> [u32; TABLE_NUMBERS]
    ensures { result ≡ unit_spiral_table }
{
    TABLE
}

// The row of an angle in thousandths of a radian; the table is laid out once for both numbers.
#[tactic(auto, using(crate::proofs::EachEntry::x_of_row, crate::proofs::EachEntry::y_of_row))]
fn row_at(thousandth: usize) -> Row
    requires { thousandth ≤ 500 }
    ensures { (pos result.x ≡ unit_x (row_angle thousandth)) × (pos result.y ≡ unit_y (row_angle thousandth)) }
{
    let table = entries();
    Row {
        x: table[2 * thousandth],
        y: table[2 * thousandth + 1],
    }
}

// X and Y of a spiral of a length in mm, at an angle in thousandths of a radian, in µm, from the table: what document 01's rule gives for
// that angle. Any numbers are taken: refusal 25 for a thousandth above 500, then 11 for a length above 500,000, with place 0.
#[tactic(auto, unfolding(crate::specs::LookUp::look_up_reply, crate::specs::LookUp::look_up_checks, crate::specs::LookUp::end_by, refusals::specs::Replying::reply))]
pub fn look_up(thousandth: u32, length: u32) -> Result<SpiralPoint, Refusal>
    ensures { point_reply_of result ≡ look_up_reply thousandth length }
{
    must(thousandth <= 500, Refusal::Thousandth)?;
    must(length <= 500000, Refusal::Spiral(0))?;
    let row = row_at(thousandth as usize);
    Ok(SpiralPoint {
        x: scaled_length(length, row.x),
        y: scaled_length(length, row.y),
    })
}

// The table at the front of `ratios`, x and y of each row in turn: 1,002 numbers. Answers their count, or refusal 16, which leaves
// `ratios` as it was. (No `fill_front`: the table holds 32 bits for each number, the caller 64.)
#[tactic(auto, unfolding(crate::specs::UnitSpiralTable::table_in, refusals::specs::Filling::fill, refusals::specs::Filling::with_room), using(crate::proofs::EachEntry::table_length))]
pub fn table_numbers(ratios: &mut [u64]) -> Result<usize, Refusal>
    ensures answer { fill_reply_of result ≡ (table_in ratios.old).reply }
    ensures memory { ratios.new ≡ (table_in ratios.old).buffer }
{
    if ratios.len() < TABLE_NUMBERS {
        return Err(Refusal::SmallBuffer);
    }
    let table = entries();
    // By index: of what `iter_mut` lends nothing is known afterwards.
    for k in 0..TABLE_NUMBERS {
        ratios[k] = u64::from(table[k]);
    }
    Ok(TABLE_NUMBERS)
}
