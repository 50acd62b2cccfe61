// A kind of rules: what one of them means, and how it is asked and run.
ghost use Rattle.std.specs.Prelude.{◌≡◌, ℕ, false, is_ok, Ok};
ghost use Rattle.rules.specs.Rules.{Rule, Lawful};
ghost use Rattle.rules.specs.Banks.{nothing, Run};

use rules::{Ran, RuleFault};
use tables::Domains;

pub trait Kind {
    // the rule
    ghost meaning: { Self → Rule };

    // Whether the rule fits n variables, else the refusal.
    fn fit(&self, n: usize) -> Result<(), RuleFault>
        ensures { result ≡ (meaning self.now).fit n };

    // Whether the rule watches variable x.
    fn watches(&self, x: usize) -> bool
        ensures { result ≡ (meaning self.now).watches x };

    // Runs the rule on any store; one that does not fit changes nothing and answers that nothing got smaller.
    fn run<S: Domains>(&self, store: &mut S) -> Ran
        ensures run { Run (S.Domains.frame store.old).vars (meaning self.now) (S.Domains.table store.old) result (S.Domains.table store.new) }
        ensures idle { is_ok ((meaning self.now).fit (S.Domains.frame store.old).vars) ≡ false → (result ≡ Ok nothing) × (store.new ≡ store.old) }
        ensures same_saved { S.Domains.saved store.new ≡ S.Domains.saved store.old }
        ensures same_frame { S.Domains.frame store.new ≡ S.Domains.frame store.old };

    // What each kind proves: a rule keeps the five laws over every number of variables that it fits.
    ghost lawful: { (r : Self) (n : ℕ) → (meaning r).fit n ≡ Ok tt → Lawful n (meaning r) };
}
