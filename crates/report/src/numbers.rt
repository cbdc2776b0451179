// Pieces of text and numbers in the caller's bytes, one after the other. (No `write!`: a text goes into them whole or not at all. Bytes and index
// are passed apart: with a struct that borrows the bytes, each step would have to promise that it borrows the same ones.)
ghost use Rattle.std.specs.Prelude.{◌≡◌, ◌++◌, ◌+◌, ◌≤◌, length};
ghost use Rattle.report.specs.Numbers.{decimal as Numbers·decimal, metres};
ghost use Rattle.report.specs.Pieces.{Wrote};

// A piece of text from index `at` on. Answers where it ends.
pub(crate) fn put(text: &mut [u8], at: usize, piece: &[u8]) -> usize
    requires { at + length piece.now ≤ length text.old }
    ensures { Wrote text.old text.new at result piece.now }
{
    let end = at + piece.len();
    text[at..end].copy_from_slice(piece);
    end
}

// How many digits a number has.
#[tactic(auto, using(crate::proofs::Lengths::lengths))]
pub(crate) fn decimal_length(n: u64) -> usize
    ensures { (result ≡ length (Numbers·decimal n)) × (result ≤ 20) }
{
    let mut digits = [0u8; 20];
    io::decimal(n, &mut digits)
}

// A number in decimal digits and what stands after it, from index `at` on.
#[tactic(auto, using(crate::proofs::Lengths::lengths))]
pub(crate) fn put_decimal(text: &mut [u8], at: usize, n: u64, after: &[u8]) -> usize
    requires { at + length (Numbers·decimal n) + length after.now ≤ length text.old }
    ensures { Wrote text.old text.new at result (Numbers·decimal n ++ after.now) }
{
    let mut digits = [0u8; 20];
    let count = io::decimal(n, &mut digits);
    let at = put(text, at, &digits[..count]);
    put(text, at, after)
}

// How long a station is in metres.
#[tactic(auto, using(crate::proofs::Lengths::lengths))]
pub(crate) fn metres_length(station: u64) -> usize
    ensures { (result ≡ length (metres station)) × (result ≤ 27) }
{
    decimal_length(station / 1000000) + 7
}

// A station in metres and what stands after it, from index `at` on. The six decimals are the digits of a number of seven that begins with 1,
// without that 1.
#[tactic(auto, using(crate::proofs::Lengths::lengths), unfolding(crate::specs::Numbers::ascii))]
pub(crate) fn put_metres(text: &mut [u8], at: usize, station: u64, after: &[u8]) -> usize
    requires { at + length (metres station) + length after.now ≤ length text.old }
    ensures { Wrote text.old text.new at result (metres station ++ after.now) }
{
    let mut digits = [0u8; 20];
    io::decimal(1000000 + station % 1000000, &mut digits);
    let at = put_decimal(text, at, station / 1000000, b".");
    let at = put(text, at, &digits[1..7]);
    put(text, at, after)
}
