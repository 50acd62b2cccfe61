// A bank of rules of one kind, in a list that the caller lends.
ghost use Rattle.std.specs.Prelude.{◌≡◌, ◌≤◌, map};
ghost use Rattle.std.specs.Option.{option_copied};
ghost use Rattle.rules.specs.Rules.{Rule};
ghost use Rattle.rules.specs.Banks.{count_of, called};
ghost use Rattle.filters.specs.Listed.{rule_by};
ghost use Rattle.filters.specs.Facts.{listed_lawful};

use crate::kind::Kind;
use crate::listed::Listed;
use rules::{Bank, MOST, Ran, RuleFault, sets};
use tables::Domains;

// How many rules a list has, or 257 where there are more than 256.
pub fn count<T>(rules: &[T]) -> usize
    ensures value { (f : T → Rule) → result ≡ count_of (map f rules.now) }
    ensures bound { result ≤ 257 }
{
    rules.len().min(MOST + 1)
}

// Where the rule of a number stands: nowhere past the last, and nowhere in a list of more than 256.
fn find<T>(rules: &[T], rule: usize) -> Option<&T>
    ensures { (f : T → Rule) → called (map f rules.now) rule ≡ rule_by f (option_copied result) }
{
    if rules.len() > MOST {
        return None;
    }
    rules.get(rule)
}

// The rule of a number: none past the last, and none in a list of more than 256.
pub fn item<T: Copy>(rules: &[T], rule: usize) -> Option<T>
    ensures { (f : T → Rule) → called (map f rules.now) rule ≡ rule_by f result }
{
    find(rules, rule).copied()
}

impl<'a, T> Listed<'a, T> {
    // The bank of these rules, in their order.
    pub fn new(rules: &'a [T]) -> Listed<'a, T>
        ensures { result.rules.now ≡ rules.now }
    {
        Listed { rules }
    }
}

impl<'a, T: Kind> Listed<'a, T> {
    // The rule of a number: none past the last, and none in a list of more than 256.
    fn find(&self, rule: usize) -> Option<&'a T>
        ensures { called (map T.Kind.meaning self.now.rules.now) rule ≡ rule_by T.Kind.meaning (option_copied result) }
    {
        find(self.rules, rule)
    }
}

impl<'a, T: Kind> Bank for Listed<'a, T> {
    ghost rules = { λ b. map T.Kind.meaning b.rules.now };

    ghost lawful = { λ b. listed_lawful T.Kind.meaning T.Kind.lawful b.rules.now };

    fn rules(&self) -> usize {
        count(self.rules)
    }

    fn fit(&self, rule: usize, n: usize) -> Result<(), RuleFault> {
        self.find(rule).ok_or(RuleFault::Count)?.fit(n)
    }

    fn watches(&self, rule: usize, x: usize) -> bool {
        self.find(rule).is_some_and(|r| r.watches(x))
    }

    // By a match: with `map_or` the closure would hold the store, and what it leaves of it would not be known.
    fn run<S: Domains>(&self, rule: usize, store: &mut S) -> Ran {
        match self.find(rule) {
            Some(r) => r.run(store),
            None => Ok(sets::none()),
        }
    }
}
