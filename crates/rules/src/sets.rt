// Sets of numbers below 256, each written as four 64-bit words: k is bit k % 64 of word k / 64.
ghost use Rattle.std.specs.Prelude.{◌≡◌, ℕ, not, ◌&&◌, ◌||◌, ◌==◌, nat_lt};
ghost use Rattle.tables.specs.Rows.{First};
ghost use Rattle.rules.specs.Banks.{in_set, nothing};
ghost use Rattle.rules.specs.Sets.{members_of, members_left};

use crate::members::Members;
use tables::rows;

pub type Set = [u64; 4];

// The empty set.
pub fn none() -> Set
    ensures { result ≡ nothing }
{
    [0; 4]
}

// Whether a set has k.
pub fn has(set: Set, k: usize) -> bool
    ensures { result ≡ in_set set k }
{
    rows::at_place(&set, k)
}

// The next member at or above a number, if there is one.
pub fn next(set: Set, from: usize) -> Option<usize>
    ensures { First (in_set set) from 256 result }
{
    rows::next_place(&set, from)
}

// Puts k into a set; a number not below 256 is let be.
pub fn insert(set: &mut Set, k: usize)
    ensures { (j : ℕ) → in_set set.new j ≡ (in_set set.old j || (j == k && nat_lt k 256)) }
{
    rows::put(set, k);
}

// Takes k out of a set.
pub fn remove(set: &mut Set, k: usize)
    ensures { (j : ℕ) → in_set set.new j ≡ (in_set set.old j && not (j == k)) }
{
    rows::take(set, k);
}

// The members of the first set that the second has not.
pub fn minus(set: Set, other: Set) -> Set
    ensures { (j : ℕ) → in_set result j ≡ (in_set set j && not (in_set other j)) }
{
    std::array::from_fn(|j| set[j] & !other[j])
}

// The members of a set, ascending.
pub fn members(set: Set) -> Members
    ensures { members_left result ≡ members_of set }
{
    Members { set, from: 0 }
}
