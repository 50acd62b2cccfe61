// What a bank of rules means, and what each bank promises.
ghost use Rattle.std.specs.Prelude.{◌≡◌, ℕ, ◌≤◌, false, List, is_ok, Ok};
ghost use Rattle.rules.specs.Rules.{Rule};
ghost use Rattle.rules.specs.Banks.{Lawfully, in_set, nothing, count_of, called, woken, Run};

use crate::fault::RuleFault;
use crate::ran::Ran;
use crate::sets;
use crate::sets::Set;
use tables::Domains;

// How many rules a bank may have.
pub const MOST: usize = 256;

// A list of rules, numbered from 0.
pub trait Bank {
    // the rules in their order
    ghost rules: { Self → List Rule };

    // The number of rules, or 257 where there are more than 256: users of the kernel are told that number.
    fn rules(&self) -> usize
        ensures value { result ≡ count_of (rules self.now) }
        ensures bound { result ≤ 257 };

    // Whether a rule fits n variables, else the refusal.
    fn fit(&self, rule: usize, n: usize) -> Result<(), RuleFault>
        ensures { result ≡ (called (rules self.now) rule).fit n };

    // Whether a rule watches variable x.
    fn watches(&self, rule: usize, x: usize) -> bool
        ensures { result ≡ (called (rules self.now) rule).watches x };

    // Whether a rule watches one of a set of variables.
    fn watches_one(&self, rule: usize, changed: Set) -> bool
        ensures { result ≡ woken (rules self.now) (in_set changed) rule }
    {
        sets::members(changed).any(|x| self.watches(rule, x))
    }

    // Which rules watch one of a set of variables.
    fn woken(&self, changed: Set) -> Set
        ensures { (i : ℕ) → in_set result i ≡ woken (rules self.now) (in_set changed) i }
    {
        let mut set = sets::none();
        for rule in 0..self.rules().min(MOST) {
            if self.watches_one(rule, changed) {
                sets::insert(&mut set, rule);
            }
        }
        set
    }

    // Runs a rule on any store; what does not fit changes nothing and answers that nothing got smaller.
    fn run<S: Domains>(&self, rule: usize, store: &mut S) -> Ran
        ensures run { Run (S.Domains.frame store.old).vars (called (rules self.now) rule) (S.Domains.table store.old) result (S.Domains.table store.new) }
        ensures idle { is_ok ((called (rules self.now) rule).fit (S.Domains.frame store.old).vars) ≡ false → (result ≡ Ok nothing) × (store.new ≡ store.old) }
        ensures same_saved { S.Domains.saved store.new ≡ S.Domains.saved store.old }
        ensures same_frame { S.Domains.frame store.new ≡ S.Domains.frame store.old };

    // What each bank proves: each rule keeps the five laws over every number of variables that it fits.
    ghost lawful: { (b : Self) → Lawfully (rules b) };
}
