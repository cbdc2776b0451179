// The order of two products of 64 and 32 bits, which have up to 96.
ghost use Rattle.std.specs.Prelude.{◌≡◌, ◌*◌, leb};

// Whether c × d is at most a × b, of every four numbers.
pub fn product_at_most(c: u64, d: u32, a: u64, b: u32) -> bool
    ensures { result ≡ leb (c * d) (a * b) }
{
    u128::from(c) * u128::from(d) <= u128::from(a) * u128::from(b)
}
