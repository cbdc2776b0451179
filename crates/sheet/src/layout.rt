// The editions of the sheet, and their layout: the widths of its fields in bits. All but the start's are those of every edition.
ghost use Rattle.std.specs.Prelude.{◌≡◌, ◌<◌, ◌≤◌};
ghost use Rattle.refusals.specs.Outcomes.{outcome_of};
ghost use Rattle.refusals.specs.Order.{outcome};
ghost use Rattle.packed_sheet.specs.Layout.{numbered, edition_check, entry_at, bit_count, byte_count};

use packed_sheet::Edition;
use refusals::{Refusal, must};

// The head, before the start.
pub(crate) const EDITION: usize = 4;

pub(crate) const COUNT: usize = 7;

pub(crate) const SPEED: usize = 7;

pub(crate) const CROSSFALL: usize = 4;

// The bit where the start begins.
pub(crate) const START_AT: usize = EDITION + COUNT + SPEED + CROSSFALL;

// A distance, and the curve after it.
pub(crate) const DISTANCE: usize = 25;

pub(crate) const SIDE: usize = 1;

pub(crate) const DEFLECTION: usize = 19;

pub(crate) const RADIUS: usize = 23;

pub(crate) const SPIRAL: usize = 19;

// The bits that the writer puts at once, beside the head: a distance with side and deflection, radius and spiral.
pub(crate) const TURN: usize = DISTANCE + SIDE + DEFLECTION;

pub(crate) const SIZE: usize = RADIUS + SPIRAL;

// A distance with its curve.
const ENTRY: usize = TURN + SIZE;

// The edition of a number. Any number but 1 and 2 has none: it gets edition 1, whose number it is not. (No `Option`: a public call that
// cannot fail.)
#[tactic(auto, unfolding(packed_sheet::specs::Layout::numbered))]
pub fn edition_numbered(number: u32) -> Edition
    ensures { result ≡ numbered number }
{
    if number == 2 {
        Edition {
            number: 2,
            width: 32,
            greatest: 4000000000,
        }
    } else {
        Edition {
            number: 1,
            width: 28,
            greatest: 200000000,
        }
    }
}

// Refusal 2: an edition's number.
#[tactic(auto, unfolding(packed_sheet::specs::Layout::edition_check))]
pub fn check_edition(number: u32) -> Result<(), Refusal>
    ensures { outcome_of result ≡ outcome (edition_check number) }
{
    must(number == edition_numbered(number).number, Refusal::Edition)
}

// The bit where distance `i` begins; the curve after it follows. (Here and below edition and count stay two arguments: reader and writer hold
// them in types of their own.)
pub(crate) fn entry_at(edition: Edition, i: usize) -> usize
    requires { (i < 128) × (edition.width ≤ 32) }
    ensures { result ≡ entry_at edition i }
{
    START_AT + edition.width + ENTRY * i
}

// How many bits a sheet of `n` curves has before it is filled to a whole byte.
pub(crate) fn bit_count(edition: Edition, n: usize) -> usize
    requires { (n < 128) × (edition.width ≤ 32) }
    ensures { result ≡ bit_count edition n }
{
    entry_at(edition, n) + DISTANCE
}

// How many bytes a sheet of `n` curves has.
pub(crate) fn byte_count(edition: Edition, n: usize) -> usize
    requires { (n < 128) × (edition.width ≤ 32) }
    ensures { result ≡ byte_count edition n }
{
    bit_count(edition, n).div_ceil(8)
}
