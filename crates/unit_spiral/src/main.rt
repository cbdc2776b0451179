// The program of the unit spiral table (document 02, N8): its 501 rows on standard output, each a line of row, x and y. Where writing fails,
// standard error says why.
#![tactic(auto)]

ghost use Rattle.std.specs.Prelude.{◌≡◌};
ghost use Rattle.report.specs.Text.{table_text};
ghost use Rattle.spiral_table.specs.UnitSpiralTable.{unit_spiral_table};

use spiral_table::TABLE_NUMBERS;

// So many bytes the text has (`proofs/PrintedText.antt`).
const BYTES: usize = 11574;

// What is printed. Table and text fill their buffers, so that neither is refused.
fn printed() -> [u8; BYTES]
    ensures { result ≡ table_text unit_spiral_table }
{
    let mut ratios = [0u64; TABLE_NUMBERS];
    let _ = spiral_table::table_numbers(&mut ratios);
    let mut text = [0u8; BYTES];
    let _ = report::table_text(&ratios, &mut text);
    text
}

fn main(rt: HostRuntime) {
    let text = printed();
    if let Err(error) = rt.write_all(&text) {
        failures::fail(&rt, "unit_spiral: standard output", error);
    }
}
