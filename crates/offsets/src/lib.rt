// The bank of the rules x = y + c, filtered by values.
#![tactic(auto)]

ghost use Rattle.std.specs.Prelude.{◌≡◌, ℕ, true, ◌&&◌, ◌||◌, ℤ, ◌+ℤ◌, ◌-ℤ◌, Ok, ◌==◌, nat_lt};
ghost use Rattle.tables.specs.Rows.{in_row};
ghost use Rattle.rules.specs.Banks.{in_set, Run};
ghost use Rattle.offsets.specs.Offsets.{in_reach, offset};
ghost use Rattle.offsets.specs.Facts.{fits_lawful};

mod both;
pub mod rule;

use both::Both;
use filters::{Kind, Listed};
pub use rule::Offset;
use rules::sets::Set;
use rules::{Failed, Ran, RuleFault, sets};
use tables::{Domains, rows};

// A bank of these rules, in a list that the caller lends.
pub type Offsets<'a> = Listed<'a, Offset>;

// The values of x and of y that have a partner in the other one, by one walk over those of y.
fn matched<S: Domains>(store: &S, o: Offset) -> Both
    requires { in_reach o.c ≡ true }
    ensures x { (v : ℤ) → in_row result.x v ≡ (S.Domains.table store.now o.x v && S.Domains.table store.now o.y (v -ℤ o.c)) }
    ensures y { (w : ℤ) → in_row result.y w ≡ (S.Domains.table store.now o.y w && S.Domains.table store.now o.x (w +ℤ o.c)) }
{
    let mut x = rows::none();
    let mut y = rows::none();
    for w in filters::values(store, o.y) {
        let v = w + o.c;
        if store.has(o.x, v) {
            rows::insert(&mut x, v);
            rows::insert(&mut y, w);
        }
    }
    Both { x, y }
}

// The set of what got smaller, by what the two keeps said.
fn smaller(o: Offset, at_x: bool, at_y: bool) -> Set
    ensures { (z : ℕ) → in_set result z ≡ ((at_x && (z == o.x && nat_lt o.x 256)) || (at_y && (z == o.y && nat_lt o.y 256))) }
{
    let mut set = sets::none();
    if at_x {
        sets::insert(&mut set, o.x);
    }
    if at_y {
        sets::insert(&mut set, o.y);
    }
    set
}

// Runs a rule that fits, by the values that have a partner: x keeps those that lie c above one of y, and y those that lie c below one of x.
fn narrow<S: Domains>(store: &mut S, o: Offset, left: Both) -> Ran
    requires fits { (offset o).fit (S.Domains.frame store.old).vars ≡ Ok tt }
    requires x { (v : ℤ) → in_row left.x v ≡ (S.Domains.table store.old o.x v && S.Domains.table store.old o.y (v -ℤ o.c)) }
    requires y { (w : ℤ) → in_row left.y w ≡ (S.Domains.table store.old o.y w && S.Domains.table store.old o.x (w +ℤ o.c)) }
    ensures run { Run (S.Domains.frame store.old).vars (offset o) (S.Domains.table store.old) result (S.Domains.table store.new) }
    ensures same_saved { S.Domains.saved store.new ≡ S.Domains.saved store.old }
    ensures same_frame { S.Domains.frame store.new ≡ S.Domains.frame store.old }
{
    let at_x = store.keep(o.x, left.x);
    if at_x.empty {
        return Err(Failed);
    }
    let at_y = store.keep(o.y, left.y);
    if at_y.empty {
        return Err(Failed);
    }
    Ok(smaller(o, at_x.smaller, at_y.smaller))
}

impl Kind for Offset {
    ghost meaning = { offset };

    fn fit(&self, n: usize) -> Result<(), RuleFault> {
        if self.x >= n || self.y >= n {
            return Err(RuleFault::Variable);
        }
        if self.c < -1023 || self.c > 1023 {
            return Err(RuleFault::Value);
        }
        Ok(())
    }

    fn watches(&self, x: usize) -> bool {
        x == self.x || x == self.y
    }

    fn run<S: Domains>(&self, store: &mut S) -> Ran {
        if self.fit(store.variables()).is_err() {
            return Ok(sets::none());
        }
        let left = matched(store, *self);
        narrow(store, *self, left)
    }

    ghost lawful = { fits_lawful };
}
