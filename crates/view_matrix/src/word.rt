//! A word of a column.

ghost use Rattle.std.specs.Prelude.{◌≡◌, ◌<◌, ◌≤◌, ◌==◌, ◌&&◌, ◌||◌, ℕ, nat_lt, if◌then◌else◌};
ghost use Rattle.view_matrix.specs.Columns.{is_set};

/// Whether a bit of a word is set.
pub(crate) fn is_set(word: u64, place: u32) -> bool
    requires { place < 64 }
    ensures { result ≡ is_set word place }
{
    (word >> place) & 1 == 1
}

/// The word with this bit at a place.
pub(crate) fn with_bit(word: u64, place: u32, bit: bool) -> u64
    requires { place < 64 }
    ensures { (i : ℕ) → i < 64 → is_set result i ≡ (if i == place then bit else is_set word i) }
{
    let mask = 1u64 << place;
    if bit { word | mask } else { word & !mask }
}

/// The word with a bit more at a place, where the bit is set.
pub(crate) fn more_bit(word: u64, place: u32, bit: bool) -> u64
    requires { place < 64 }
    ensures { (i : ℕ) → is_set result i ≡ (is_set word i || (bit && i == place)) }
{
    word | (u64::from(bit) << place)
}

/// The word with the bits of a mask more, where this bit is set.
pub(crate) fn with_mask(word: u64, mask: u64, bit: bool) -> u64
    ensures { (i : ℕ) → is_set result i ≡ (is_set word i || (bit && is_set mask i)) }
{
    word | if bit { mask } else { 0 }
}

/// The word whose so many lowest bits are set.
pub(crate) fn lowest_bits(count: u32) -> u64
    requires some { 1 ≤ count }
    requires few { count ≤ 64 }
    ensures { (i : ℕ) → is_set result i ≡ nat_lt i count }
{
    u64::MAX >> (64 - count)
}
