// Numbers in buffers, and signed numbers by their patterns. Each function answers for every argument: a read past the end gives 0, and a write past
// the end does nothing.
#![tactic(auto)]

ghost use Rattle.std.specs.Prelude.{◌≡◌, ◌<◌, [], ◌∷◌, ◌+ℤ◌, ◌-ℤ◌, slice_index, slice_set, get_or, set};
ghost use Rattle.std.specs.Int.{w32};
ghost use Rattle.std.proofs.Common.{to_z, of_z};
ghost use Rattle.numbers.specs.Bytes.{little, shorts, words};
ghost use Rattle.numbers.specs.Signed.{narrowed, lower, sum, difference, widened};

// The number of two bytes, the lower first.
#[tactic(auto, unfolding(crate::specs::Bytes::little))]
pub fn pair(a: u8, b: u8) -> u32
    ensures value { result ≡ little (a ∷ b ∷ []) }
    ensures upper_bound { result < 65536 }
{
    u16::from_le_bytes([a, b]) as u32
}

// The number of four bytes, the lowest first.
#[tactic(auto, unfolding(crate::specs::Bytes::little))]
fn quad(a: u8, b: u8, c: u8, d: u8) -> u32
    ensures { result ≡ little (a ∷ b ∷ c ∷ d ∷ []) }
{
    u32::from_le_bytes([a, b, c, d])
}

// The 16-bit number at place i.
#[tactic(auto, using(crate::specs::Bytes::Laws::short_is, crate::specs::Bytes::Laws::number_past))]
pub fn short_at(s: &[u8], i: usize) -> u32
    ensures value { result ≡ slice_index (shorts s.now) i }
    ensures upper_bound { result < 65536 }
{
    if i < s.len() / 2 {
        let at = i * 2;
        pair(s[at], s[at + 1])
    } else {
        0
    }
}

// The 16-bit number at place i becomes v.
#[tactic(auto, using(crate::specs::Bytes::Laws::short_put, crate::specs::Bytes::Laws::short_bytes, crate::specs::Bytes::Laws::numbers_kept))]
pub fn put_short(s: &mut [u8], i: usize, v: u16)
    ensures { shorts s.new ≡ slice_set (shorts s.old) i v }
{
    if i < s.len() / 2 {
        let at = i * 2;
        s[at] = (v % 256) as u8;
        s[at + 1] = (v / 256) as u8;
    }
}

// The word at place i.
#[tactic(auto, using(crate::specs::Bytes::Laws::word_is, crate::specs::Bytes::Laws::number_past))]
pub fn word_at(s: &[u8], i: usize) -> u32
    ensures { result ≡ slice_index (words s.now) i }
{
    if i < s.len() / 4 {
        let at = i * 4;
        quad(s[at], s[at + 1], s[at + 2], s[at + 3])
    } else {
        0
    }
}

// The word at place i becomes v.
#[tactic(auto, using(crate::specs::Bytes::Laws::word_put, crate::specs::Bytes::Laws::word_bytes, crate::specs::Bytes::Laws::numbers_kept))]
pub fn put_word(s: &mut [u8], i: usize, v: u32)
    ensures { words s.new ≡ slice_set (words s.old) i v }
{
    if i < s.len() / 4 {
        let at = i * 4;
        s[at] = (v % 256) as u8;
        s[at + 1] = (v / 256 % 256) as u8;
        s[at + 2] = (v / 65536 % 256) as u8;
        s[at + 3] = (v / 16777216) as u8;
    }
}

// The item at place i of a list; `outside` where there is none.
pub fn item_at<T: Copy>(list: &[T], i: usize, outside: T) -> T
    ensures { result ≡ get_or list.now i outside }
{
    list.get(i).copied().unwrap_or(outside)
}

// The item at place i of a list becomes v.
#[tactic(auto, using(std::proofs::lemmas::List::set_past))]
pub fn put_item<T: Copy>(list: &mut [T], i: usize, v: T)
    ensures { list.new ≡ set list.old i v }
{
    // Not by `get_mut`, whose clause does not say what the list is after a write through its answer.
    if i < list.len() {
        list[i] = v;
    }
}

// The number at place i of a list of numbers.
pub fn cell_at(s: &[u32], i: usize) -> u32
    ensures { result ≡ slice_index s.now i }
{
    item_at(s, i, 0)
}

// The number at place i of a list of numbers becomes v.
pub fn put_cell(s: &mut [u32], i: usize, v: u32)
    ensures { s.new ≡ slice_set s.old i v }
{
    put_item(s, i, v);
}

// The number whose pattern is x.
pub fn signed(x: u32) -> i32
    ensures { result ≡ to_z w32 x }
{
    x.cast_signed()
}

// The pattern of x.
pub fn pattern(x: i32) -> u32
    ensures { result ≡ of_z w32 x }
{
    x.cast_unsigned()
}

// Whether the number of pattern x is below that of pattern y.
#[tactic(auto, unfolding(crate::specs::Signed::lower))]
pub fn below(x: u32, y: u32) -> bool
    ensures { result ≡ lower x y }
{
    signed(x) < signed(y)
}

// The number z, if it fits into 32 signed bits.
#[tactic(auto, unfolding(crate::specs::Signed::narrowed, crate::specs::Signed::in_range))]
fn narrow(z: i64) -> Option<i32>
    ensures { result ≡ narrowed z }
{
    if -2147483648 <= z && z <= 2147483647 {
        Some(z as i32)
    } else {
        None
    }
}

// The sum, if it fits.
pub fn checked_add(a: i32, b: i32) -> Option<i32>
    ensures { result ≡ narrowed (a +ℤ b) }
{
    narrow(a as i64 + b as i64)
}

// The difference, if it fits.
pub fn checked_sub(a: i32, b: i32) -> Option<i32>
    ensures { result ≡ narrowed (a -ℤ b) }
{
    narrow(a as i64 - b as i64)
}

// The pattern of the sum, by the patterns of the two numbers.
#[tactic(auto, unfolding(crate::specs::Signed::sum))]
pub fn add(x: u32, y: u32) -> u32
    ensures { result ≡ sum x y }
{
    x.wrapping_add(y)
}

// The pattern of the difference, by the patterns of the two numbers.
#[tactic(auto, unfolding(crate::specs::Signed::difference))]
pub fn subtract(x: u32, y: u32) -> u32
    ensures { result ≡ difference x y }
{
    x.wrapping_sub(y)
}

// The 32-bit pattern of the number whose 16-bit pattern is v: a negative one gets its upper 16 bits set.
#[tactic(auto, unfolding(crate::specs::Signed::widened))]
pub fn widen(v: u32) -> u32
    ensures { result ≡ widened v }
{
    if v < 32768 { v } else { add(v, 4294901760) }
}
