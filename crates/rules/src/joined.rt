// Two banks as one: the first one's rules come before the second's.
ghost use Rattle.std.specs.Prelude.{◌≡◌, ◌+◌, ◌-◌, ◌≤◌, ◌++◌, if◌then◌else◌, nat_le, nat_lt};
ghost use Rattle.rules.specs.declared.side.Side.TheVariants.{First, Second};
ghost use Rattle.rules.specs.Facts.{joined_lawful};
ghost use Rattle.rules.specs.Joins.{Whose};

use crate::bank::{Bank, MOST};
use crate::fault::RuleFault;
use crate::ran::Ran;
use crate::sets;
use crate::side::Side;
use tables::Domains;

#[derive(Clone, Copy, PartialEq, Eq, Debug)]
pub struct Joined<P, Q> {
    pub first: P,
    pub second: Q,
}

// Where a rule stands, if the first bank has `first` rules and the second `second`.
fn place(rule: usize, first: usize, second: usize) -> Option<Side>
    requires first { first ≤ 257 }
    requires second { second ≤ 257 }
    ensures { result ≡ (if nat_le (first + second) 256 then Some (if nat_lt rule first then First rule else Second (rule - first)) else None) }
{
    if first + second > MOST {
        return None;
    }
    Some(if rule < first {
        Side::First(rule)
    } else {
        Side::Second(rule - first)
    })
}

impl<P: Bank, Q: Bank> Joined<P, Q> {
    // Which bank has a rule, and by which number; nobody where together they have more than 256.
    fn find(&self, rule: usize) -> Option<Side>
        ensures { Whose (P.Bank.rules self.now.first) (Q.Bank.rules self.now.second) rule result }
    {
        place(rule, self.first.rules(), self.second.rules())
    }
}

// Each call matches on whose rule it is: closures for both sides would name the same two calls in three lines more.
impl<P: Bank, Q: Bank> Bank for Joined<P, Q> {
    ghost rules = { λ b. P.Bank.rules b.first ++ Q.Bank.rules b.second };

    ghost lawful = { λ b. joined_lawful (P.Bank.rules b.first) (Q.Bank.rules b.second) (P.Bank.lawful b.first) (Q.Bank.lawful b.second) };

    fn rules(&self) -> usize {
        (self.first.rules() + self.second.rules()).min(MOST + 1)
    }

    fn fit(&self, rule: usize, n: usize) -> Result<(), RuleFault> {
        match self.find(rule).ok_or(RuleFault::Count)? {
            Side::First(r) => self.first.fit(r, n),
            Side::Second(r) => self.second.fit(r, n),
        }
    }

    fn watches(&self, rule: usize, x: usize) -> bool {
        self.find(rule).is_some_and(|side| match side {
            Side::First(r) => self.first.watches(r, x),
            Side::Second(r) => self.second.watches(r, x),
        })
    }

    fn run<S: Domains>(&self, rule: usize, store: &mut S) -> Ran {
        match self.find(rule) {
            Some(Side::First(r)) => self.first.run(r, store),
            Some(Side::Second(r)) => self.second.run(r, store),
            None => Ok(sets::none()),
        }
    }
}
