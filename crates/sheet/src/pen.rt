// The fields of a line's sheet put into the caller's bytes, most significant bit first: each byte is stored once, in ascending order. Edition
// and line are those whose sheet it is: the contracts name them, and nothing here reads them. The bytes stand beside the
// pen: a struct that held the `&mut` would need a clause in each contract that it is still the same.
ghost use Rattle.std.specs.Prelude.{◌≡◌, ℕ, ◌+◌, ◌*◌, ◌/◌, ◌%◌, ◌^◌, ◌<◌, ◌≤◌, length, get_or};
ghost use Rattle.bits.specs.Bits.{bits_at};
ghost use Rattle.packed_sheet.specs.EachStore.{Store, Stores};
ghost use Rattle.sheet.specs.Pens.{told, sheet, Begun, Come, Next, Put};

use line::Line;
use packed_sheet::Edition;

// How far the sheet is written: `at` of its bytes are stored, and the last `held` bits of `pending`, less than a word, wait.
#[derive(Clone, Copy)]
pub(crate) struct Pen {
    pub at: usize,
    pub pending: u64,
    pub held: usize,
}

// The sheet's byte `at`, the next: the writer's only store.
#[tactic(auto, using(packed_sheet::proofs::SoFar::store_made))]
fn store(edition: Edition, line: &Line, bytes: &mut [u8], at: usize, byte: u8)
    requires begun { Begun edition line.now bytes.old at }
    requires next { (at < length (sheet (told edition line.now))) × (byte ≡ get_or (sheet (told edition line.now)) at 0) }
    ensures { Store edition line.now at bytes.old bytes.new }
{
    bytes[at] = byte;
}

// The whole bytes of the last `held` bits of `word`, which are the sheet's from byte `at` on, one after the other: `store` is the only store,
// so that no block of bytes is copied.
#[tactic(auto, using(crate::proofs::Pens::storing))]
fn store_bytes(edition: Edition, line: &Line, bytes: &mut [u8], at: usize, word: u64, held: usize)
    requires begun { Begun edition line.now bytes.old at }
    requires next { (held ≤ 64) × (8 * at + held ≤ 8 * length (sheet (told edition line.now))) × (word % 2 ^ held ≡ bits_at (sheet (told edition line.now)) (8 * at) held) }
    ensures { Stores edition line.now at bytes.old (at + held / 8) bytes.new }
{
    for i in 0..held / 8 {
        let byte = ((word >> (held - 8 * (i + 1))) % 256) as u8;
        store(edition, line, bytes, at + i, byte);
    }
}

// The bits of `before` with a field of `width` bits behind them, as far as 64 bits hold.
#[tactic(auto, using(crate::proofs::Pens::joining))]
pub(crate) fn join(before: u64, width: usize, value: u64) -> u64
    requires { (width < 64) × (value < 2 ^ width) }
    ensures last { (held : ℕ) → held + width ≤ 64 → result % 2 ^ (held + width) ≡ before % 2 ^ held * 2 ^ width + value }
    ensures whole { before < 2 ^ 32 → width ≤ 32 → result ≡ before * 2 ^ width + value }
{
    (before << width) + value
}

// The sheet's next `width` bits; a whole word is stored.
pub(crate) fn put(
    edition: Edition,
    line: &Line,
    bytes: &mut [u8],
    pen: Pen,
    width: usize,
    value: u64,
) -> Pen
    requires come { Come (told edition line.now) bytes.old pen }
    requires next { Next (told edition line.now) pen width value }
    ensures { Put (told edition line.now) bytes.old bytes.new pen result width }
{
    let held = pen.held + width;
    if held < 64 {
        return Pen {
            at: pen.at,
            pending: join(pen.pending, width, value),
            held,
        };
    }
    let left = held - 64;
    let word = join(pen.pending, width - left, value >> left);
    store_bytes(edition, line, bytes, pen.at, word, 64);
    Pen {
        at: pen.at + 8,
        pending: value,
        held: left,
    }
}

// Of the bits that wait, fewer than twice `size`, the first `size` are stored, where there are as many.
fn store_part(edition: Edition, line: &Line, bytes: &mut [u8], pen: Pen, size: usize) -> Pen
    requires come { Come (told edition line.now) bytes.old pen }
    requires size_bound { (size ≤ 64) × (size % 8 ≡ 0) × (pen.held < 2 * size) }
    ensures { Put (told edition line.now) bytes.old bytes.new pen result 0 × (result.held < size) }
{
    if pen.held < size {
        return pen;
    }
    let left = pen.held - size;
    store_bytes(edition, line, bytes, pen.at, pen.pending >> left, size);
    Pen {
        at: pen.at + size / 8,
        pending: pen.pending,
        held: left,
    }
}

// All bits that wait, whole bytes: four at once, two and one.
#[tactic(auto, using(packed_sheet::proofs::SoFar::stores_then))]
pub(crate) fn store_rest(edition: Edition, line: &Line, bytes: &mut [u8], pen: Pen)
    requires come { Come (told edition line.now) bytes.old pen }
    requires whole_bytes { pen.held % 8 ≡ 0 }
    ensures { Stores edition line.now pen.at bytes.old (pen.at + pen.held / 8) bytes.new }
{
    let four = store_part(edition, line, bytes, pen, 32);
    let two = store_part(edition, line, bytes, four, 16);
    store_part(edition, line, bytes, two, 8);
}
