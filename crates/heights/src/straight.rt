// Straight grades, and the heights on them.
ghost use Rattle.std.specs.Prelude.{◌≡◌, ◌+◌, ◌-◌, ◌*◌, ◌≤◌, pos, nat_abs};
ghost use Rattle.grades.specs.Heights.{along_grade, height_on};

// The straight grade that goes out of a point of a profile. Its methods are asked at a station that no type carries: from the point on, and in range.
#[derive(Clone, Copy)]
pub(crate) struct Straight {
    // The station of the point, in mm.
    pub(crate) station: u64,
    // Its height, in millionths of a mm.
    pub(crate) height: i64,
    // The grade, in millionths.
    pub(crate) grade: i64,
    ghost near: { station ≤ 200000000 },
    ghost flat: { nat_abs grade ≤ 120000 },
    ghost high: { nat_abs height ≤ 10000000000000 + 120000 * station },
}

impl Straight {
    // The height at a station farther on, in millionths of a mm.
    pub(crate) fn carried_height(self, station: u64) -> i64
        requires from { self.station ≤ station }
        requires known { station ≤ 200000000 }
        ensures height { result ≡ along_grade self.height self.grade (pos (station - self.station)) }
        ensures high { nat_abs result ≤ 10000000000000 + 120000 * station }
    {
        self.height + self.grade * (station - self.station) as i64
    }

    // The same in mm, rounded down.
    #[tactic(auto, unfolding(grades::specs::Heights::height_on))]
    pub(crate) fn height_on(self, station: u64) -> i64
        requires from { self.station ≤ station }
        requires known { station ≤ 200000000 }
        ensures { result ≡ height_on self.height self.grade (pos (station - self.station)) }
    {
        self.carried_height(station).div_euclid(1000000)
    }

    // The straight grade that goes out of a point farther on.
    pub(crate) fn onward(self, station: u64, grade: i64) -> Straight
        requires from { self.station ≤ station }
        requires known { station ≤ 200000000 }
        requires flat { nat_abs grade ≤ 120000 }
        ensures station { result.station ≡ station }
        ensures height { result.height ≡ along_grade self.height self.grade (pos (station - self.station)) }
        ensures grade { result.grade ≡ grade }
    {
        Straight {
            station,
            height: self.carried_height(station),
            grade,
        }
    }
}
