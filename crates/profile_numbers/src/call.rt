// The height of a profile that is given as numbers.
ghost use Rattle.std.specs.Prelude.{◌≡◌};
ghost use Rattle.refusals.specs.Filling.{fill_reply_of, fill};
ghost use Rattle.profile_numbers.specs.Numbers.{height_numbers, numbers_checks};

use crate::reader::read;
use heights::height_at;
use refusals::{Refusal, fill_front};

// The height in mm at a station in mm of a profile, V, start, start height, first grade, then station, outgoing grade and curve length of each
// vertex, at the front of `height` (document 02, N5). Refusal 3 for other than 4 + 3 × n numbers, then those of the profile and of the station, then
// 16. Any numbers are taken: one that its field cannot hold is refused by the check of its range.
pub fn height(profile: &[i64], station: u64, height: &mut [i64]) -> Result<usize, Refusal>
    ensures answer { fill_reply_of result ≡ (fill (numbers_checks profile.now station) (height_numbers profile.now station) height.old).reply }
    ensures memory { height.new ≡ (fill (numbers_checks profile.now station) (height_numbers profile.now station) height.old).buffer }
{
    let found = height_at(read(profile)?, station)?;
    fill_front(&[found], height)
}
