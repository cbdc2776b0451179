// The calls on one curve and on one spiral.
ghost use Rattle.std.specs.Prelude.{◌≡◌};
ghost use Rattle.refusals.specs.Filling.{fill_reply_of, fill};
ghost use Rattle.elements.specs.Answer.{element_checks};
ghost use Rattle.pokyandi.specs.Calls.{element_numbers, unit_spiral_in};

use refusals::{Refusal, fill_front};

// X, Y, k, p, D and TT of a curve at the front of `numbers`, or the first refusal.
pub(crate) fn curve_numbers(
    deflection: u32,
    radius: u32,
    spiral: u32,
    numbers: &mut [u64],
) -> Result<usize, Refusal>
    ensures result_value { fill_reply_of result ≡ (fill (element_checks deflection radius spiral) (element_numbers deflection radius spiral) numbers.old).reply }
    ensures numbers_after { numbers.new ≡ (fill (element_checks deflection radius spiral) (element_numbers deflection radius spiral) numbers.old).buffer }
{
    let e = elements::curve_elements(deflection, radius, spiral)?;
    fill_front(&[e.x, e.y, e.centre, e.shift, e.arc, e.tangent], numbers)
}

// X and Y of the end of a spiral from the table at the front of `offsets`, or the first refusal.
pub(crate) fn end_numbers(
    thousandth: u32,
    length: u32,
    offsets: &mut [u64],
) -> Result<usize, Refusal>
    ensures result_value { fill_reply_of result ≡ (unit_spiral_in thousandth length offsets.old).reply }
    ensures offsets_after { offsets.new ≡ (unit_spiral_in thousandth length offsets.old).buffer }
{
    let end = spiral_table::look_up(thousandth, length)?;
    fill_front(&[end.x, end.y], offsets)
}
