// Rows: sets of values as sixteen words, passed as values, and what is read of the words of a domain.
ghost use Rattle.std.specs.Prelude.{◌≡◌, ℕ, ◌+◌, ◌-◌, ◌*◌, ◌/◌, ◌%◌, ◌<◌, ◌≤◌, true, false, not, ◌&&◌, ◌||◌, ◌==◌, length, ℤ, pos, negsuc, ◌≤ℤ◌, IfSome, MatchOption, int_le, int_lt, nat_lt};
ghost use Rattle.tables.specs.Values.{is_value, place, equal_int};
ghost use Rattle.tables.specs.Rows.{bit, at_place, in_row, First, Final};
ghost use Rattle.tables.specs.Tables.{size_of, Next, Last};

// A domain by its bits: value v is bit (v + 512) % 64 of word (v + 512) / 64.
pub type Row = [u64; 16];

// Whether a number is a value.
pub fn is_value(v: i32) -> bool
    ensures { result ≡ is_value v }
{
    (-512..=511).contains(&v)
}

// The place of a value, or nothing for a number that is none.
fn place_of(v: i32) -> Option<usize>
    ensures { MatchOption result (is_value v ≡ false) (λ p. (is_value v ≡ true) × (p ≡ place v)) }
{
    is_value(v).then(|| (v + 512) as usize)
}

// Whether the bit of a place is set.
pub fn at_place(row: &[u64], p: usize) -> bool
    ensures { result ≡ at_place row.now p }
{
    row.get(p / 64)
        .is_some_and(|word| (*word >> (p % 64)) & 1 == 1)
}

// Whether the words have a value.
pub fn has(row: &[u64], v: i32) -> bool
    ensures { result ≡ in_row row.now v }
{
    place_of(v).is_some_and(|p| at_place(row, p))
}

// The row of no value.
pub fn none() -> Row
    ensures { (v : ℤ) → in_row result v ≡ false }
{
    [0; 16]
}

// The row of each value.
pub fn all() -> Row
    ensures { (v : ℤ) → in_row result v ≡ is_value v }
{
    interval(-512, 511)
}

// Sets the bit of a place; a place past the last word is let be. By a comparison, since of an array that `get_mut` lent nothing is known.
pub fn put<const N: usize>(words: &mut [u64; N], p: usize)
    ensures { (q : ℕ) → at_place words.new q ≡ (at_place words.old q || (q == p && nat_lt p (64 * N))) }
{
    if p / 64 < N {
        words[p / 64] |= 1 << (p % 64);
    }
}

// Clears the bit of a place; a place past the last word has none.
pub fn take<const N: usize>(words: &mut [u64; N], p: usize)
    ensures { (q : ℕ) → at_place words.new q ≡ (at_place words.old q && not (q == p)) }
{
    if p / 64 < N {
        words[p / 64] &= !(1 << (p % 64));
    }
}

// Puts a value into a row in its place; a number that is no value changes nothing.
pub fn insert(row: &mut Row, v: i32)
    ensures { (u : ℤ) → in_row row.new u ≡ (in_row row.old u || (is_value v && equal_int u v)) }
{
    if let Some(p) = place_of(v) {
        put(row, p);
    }
}

// The row with a value put in; a number that is no value changes nothing.
pub fn with(row: Row, v: i32) -> Row
    ensures { (u : ℤ) → in_row result u ≡ (in_row row u || (is_value v && equal_int u v)) }
{
    let mut wider = row;
    insert(&mut wider, v);
    wider
}

// The row with a value taken out.
pub fn without(row: Row, v: i32) -> Row
    ensures { (u : ℤ) → in_row result u ≡ (in_row row u && not (equal_int u v)) }
{
    let mut narrower = row;
    if let Some(p) = place_of(v) {
        take(&mut narrower, p);
    }
    narrower
}

// The word of its `n` lowest bits, of which there are 64 at the most.
fn low_bits(n: usize) -> u64
    ensures { (k : ℕ) → k < 64 → bit result k ≡ nat_lt k n }
{
    if n >= 64 { u64::MAX } else { (1 << n) - 1 }
}

// How many places lie below a number.
fn places_below(v: i32) -> usize
    ensures small { result ≤ 1024 }
    ensures tells { (u : ℤ) → is_value u ≡ true → nat_lt (place u) result ≡ int_lt u v }
{
    (v.clamp(-512, 512) + 512) as usize
}

// How many places lie at or below a number: those below the next one, since past the greatest number there is no value.
fn places_upto(v: i32) -> usize
    ensures small { result ≤ 1024 }
    ensures tells { (u : ℤ) → is_value u ≡ true → nat_lt (place u) result ≡ int_le u v }
{
    places_below(v.saturating_add(1))
}

// The values from `lo` to `hi`, of which there are none where `lo` is the greater.
pub fn interval(lo: i32, hi: i32) -> Row
    ensures { (v : ℤ) → in_row result v ≡ (is_value v && (int_le lo v && int_le v hi)) }
{
    let start = places_below(lo);
    let end = places_upto(hi);
    std::array::from_fn(|j| {
        let first = 64 * j;
        low_bits(end.saturating_sub(first)) & !low_bits(start.saturating_sub(first))
    })
}

// How many values the words have.
pub fn size(row: &[u64]) -> usize
    ensures value { result ≡ size_of (in_row row.now) }
    ensures bound { result ≤ 1024 }
{
    row.iter().take(16).map(|w| w.count_ones() as usize).sum()
}

// The lowest set bit of a word.
fn lowest_bit(word: u64) -> Option<usize>
    ensures { First (bit word) 0 64 result }
{
    (word != 0).then(|| word.trailing_zeros() as usize)
}

// The first place whose bit is set, from word `start` on; only sixteen words are looked at.
fn first_place(row: &[u64], start: usize) -> Option<usize>
    ensures { First (at_place row.now) (64 * start) 1024 result }
{
    (start..row.len().min(16)).find_map(|j| lowest_bit(row[j]).map(|k| 64 * j + k))
}

// The first place at or above `from` whose bit is set. Words before that in which `from` lies are not looked at, and it alone is shifted.
pub fn next_place(row: &[u64], from: usize) -> Option<usize>
    ensures { First (at_place row.now) from 1024 result }
{
    let start = from / 64;
    if start >= row.len().min(16) {
        return None;
    }
    lowest_bit(row[start] >> (from % 64))
        .map(|k| from + k)
        .or_else(|| first_place(row, start + 1))
}

// The next value of the words at or above a number.
pub fn next(row: &[u64], from: i32) -> Option<i32>
    ensures value { Next (in_row row.now) from result }
    ensures bounds { IfSome result (λ v. (negsuc 511 ≤ℤ v) × (v ≤ℤ pos 511)) }
{
    next_place(row, places_below(from)).map(|p| p as i32 - 512)
}

// The highest set bit of a word below `end`.
fn last_bit(word: u64, end: usize) -> Option<usize>
    ensures { Final (bit word) end result }
{
    let rest = word & low_bits(end);
    (rest != 0).then(|| 63 - rest.leading_zeros() as usize)
}

// The last place below `end` whose bit is set.
fn last_place(row: &[u64], end: usize) -> Option<usize>
    requires within { end ≤ 1024 }
    ensures { Final (at_place row.now) end result }
{
    // Only sixteen words are looked at, and no place of a word past that in which `end` lies is below `end`.
    row[..row.len().min(16).min(end / 64 + 1)]
        .iter()
        .enumerate()
        .rev()
        .find_map(|(j, word)| {
            let first = 64 * j;
            last_bit(*word, end.saturating_sub(first)).map(|k| first + k)
        })
}

// The last value of the words at or below a number.
pub fn last(row: &[u64], upto: i32) -> Option<i32>
    ensures value { Last (in_row row.now) upto result }
    ensures bounds { IfSome result (λ v. (negsuc 511 ≤ℤ v) × (v ≤ℤ pos 511)) }
{
    last_place(row, places_upto(upto)).map(|p| p as i32 - 512)
}
