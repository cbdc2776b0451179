// A profile whose checks have passed.
ghost use Rattle.profile.specs.Checked.{ProfileInRange};

use profile::Profile;

// A profile that passes 3, 4, 6, 22 and 21.
#[derive(Clone, Copy)]
pub(crate) struct Ranged<'a> {
    pub(crate) profile: &'a Profile,
    ghost in_range: { ProfileInRange profile.now },
}
