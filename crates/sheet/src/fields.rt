// Fields read out of a sheet's bits, most significant first.
ghost use Rattle.std.specs.Prelude.{◌≡◌, ◌+◌, ◌-◌, ◌*◌, ◌/◌, ◌^◌, ◌<◌, ◌≤◌, length, take};
ghost use Rattle.bits.specs.Bits.{value_of, bits_at};

// The number that the four bytes from `first` on spell.
fn word_at(sheet: &[u8], first: usize) -> u32
    requires { first + 4 ≤ length sheet.now }
    ensures { value_of (take (first + 4) sheet.now) ≡ value_of (take first sheet.now) * 2 ^ 32 + result }
{
    u32::from_be_bytes([
        sheet[first],
        sheet[first + 1],
        sheet[first + 2],
        sheet[first + 3],
    ])
}

// The number in the `width` bits from bit `from` on. Four bytes hold a field of up to 25 bits wherever it begins.
pub(crate) fn bits_at(sheet: &[u8], from: usize, width: usize) -> u32
    requires { (1 ≤ width) × (width ≤ 25) × (from / 8 + 4 ≤ length sheet.now) }
    ensures { result ≡ bits_at sheet.now from width }
{
    (word_at(sheet, from / 8) >> (32 - from % 8 - width)) % (1 << width)
}

// The same for a field of more than 25 bits, in two parts: four bytes do not hold it wherever it begins.
pub(crate) fn long_bits_at(sheet: &[u8], from: usize, width: usize) -> u32
    requires { (26 ≤ width) × (width ≤ 32) × (from < 65536) × ((from + width - 25) / 8 + 4 ≤ length sheet.now) }
    ensures { result ≡ bits_at sheet.now from width }
{
    let high = bits_at(sheet, from, width - 25);
    let low = bits_at(sheet, from + width - 25, 25);
    high * 33554432 + low
}

// The number in the last `width` bits.
pub(crate) fn last_bits(sheet: &[u8], width: usize) -> u32
    requires { (width < 8) × (1 ≤ length sheet.now) }
    ensures { result ≡ bits_at sheet.now (8 * length sheet.now - width) width }
{
    u32::from(sheet[sheet.len() - 1]) % (1 << width)
}
