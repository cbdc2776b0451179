// A line that passes the calculator's checks, with its lengths.
ghost use Rattle.std.specs.Prelude.{◌≡◌};
ghost use Rattle.refusals.specs.Outcomes.{passed};
ghost use Rattle.refusals.specs.Order.{outcome};
ghost use Rattle.stationing.specs.Answer.{alignment_checks};
ghost use Rattle.calculator.specs.Lengths.{lengths_of, lengths_by};

use crate::LineLengths;
use line::Line;

// A line that passes 3 to 15, and its lengths; both are lent, so that no call takes more stack.
#[derive(Clone, Copy)]
pub struct MeasuredLine<'a> {
    pub line: &'a Line,
    pub lengths: &'a LineLengths,
    pub ghost checked: { outcome (alignment_checks line.now) ≡ passed },
    pub ghost known: { lengths_of lengths.now ≡ lengths_by line.now },
}
