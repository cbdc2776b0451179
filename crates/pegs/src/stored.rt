// A peg as five numbers at the front of the caller's, for callers in other languages.
ghost use Rattle.std.specs.Prelude.{◌≡◌, ◌≤◌, pos, nat_abs};
ghost use Rattle.refusals.specs.Filling.{fill_reply_of, fill};
ghost use Rattle.pegs.specs.Pegs.{peg_checks, values_of};
ghost use Rattle.pegs.specs.Numbers.{kind_number, peg_numbers, station_numbers};

use crate::Peg;
use crate::walk::peg_at;
use line::Line;
use refusals::{Refusal, fill_front};
use stationing::ElementKind;

// The number of a kind, as the C interface has it.
fn kind_number(kind: ElementKind) -> i64
    ensures { result ≡ pos (kind_number kind) }
{
    kind as i64
}

// A peg's numbers.
fn numbers_of(peg: Peg) -> [i64; 5]
    requires { (peg.length ≤ 20000000000) × (peg.x ≤ 500000000) × (nat_abs peg.y ≤ 83333333) }
    ensures { result ≡ peg_numbers (values_of peg) }
{
    [
        kind_number(peg.kind),
        i64::from(peg.number),
        peg.length as i64,
        peg.x as i64,
        peg.y,
    ]
}

// The peg at a station as five numbers at the front of `numbers`: kind (0 straight, 1 spiral in, 2 arc, 3 spiral out), number, length, x, y.
// Answers their count, or the first refusal: those of `peg_at`, then 16; a refusal leaves `numbers` as it was.
#[tactic(auto, unfolding(crate::specs::Numbers::station_numbers, crate::specs::Pegs::peg_reply, refusals::specs::Filling::fill, refusals::specs::Filling::with_room), using(refusals::proofs::Replied::unreplied))]
pub fn peg_numbers(line: Line, station: u64, numbers: &mut [i64]) -> Result<usize, Refusal>
    ensures answer { fill_reply_of result ≡ (fill (peg_checks line station) (station_numbers line station) numbers.old).reply }
    ensures memory { numbers.new ≡ (fill (peg_checks line station) (station_numbers line station) numbers.old).buffer }
{
    let peg = peg_at(line, station)?;
    fill_front(&numbers_of(peg), numbers)
}
