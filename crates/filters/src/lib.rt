// What every bank is made of: a kind of rule, a list of rules of one kind, the ends and the values of a domain, and a run that narrows one
// domain after another.
#![tactic(auto)]

ghost use Rattle.std.specs.Prelude.{◌≡◌, ℕ, true, not, ◌&&◌, ◌||◌, pos, negsuc, ◌≤ℤ◌, IfSome, MatchOption, is_ok, ◌==◌, nat_lt};
ghost use Rattle.tables.specs.Tables.{Table, size_of, kept};
ghost use Rattle.rules.specs.Banks.{in_set};
ghost use Rattle.filters.specs.Ends.{least, greatest};
ghost use Rattle.filters.specs.Running.{Running};

pub mod ends;
pub mod kind;
pub mod list;
pub mod listed;
pub mod visits;

pub use ends::Ends;
pub use kind::Kind;
pub use listed::Listed;
use rules::sets::Set;
use rules::{Failed, sets};
use tables::{Domains, Row};
pub use visits::{Walk, values};

// The least and the greatest value of variable x, if it has one.
pub fn ends_of<S: Domains>(store: &S, x: usize) -> Option<Ends>
    ensures value { MatchOption result (size_of (S.Domains.table store.now x) ≡ 0) (λ e. (e.lo ≡ least (S.Domains.table store.now x)) × (e.hi ≡ greatest (S.Domains.table store.now x))) }
    ensures bounds { IfSome result (λ e. (negsuc 511 ≤ℤ e.lo) × (e.lo ≤ℤ pos 511) × (negsuc 511 ≤ℤ e.hi) × (e.hi ≤ℤ pos 511)) }
{
    let lo = store.next(x, -512)?;
    let hi = store.last(x, 511)?;
    Some(Ends { lo, hi })
}

// One domain of a run: variable x keeps the values of a row, and is noted where it got smaller. The run has failed where no value is left.
pub fn narrow<S: Domains>(
    store: &mut S,
    x: usize,
    row: Row,
    smaller: &mut Set,
) -> Result<(), Failed>
    ensures after { S.Domains.table store.new ≡ kept x row (S.Domains.table store.old) }
    ensures left { is_ok result ≡ not (size_of (S.Domains.table store.new x) == 0) }
    ensures noted { (z : ℕ) → in_set smaller.new z ≡ (in_set smaller.old z || (nat_lt (size_of (S.Domains.table store.new x)) (size_of (S.Domains.table store.old x)) && (z == x && nat_lt x 256))) }
    ensures running { (found : Table) → Running (S.Domains.frame store.old).vars found smaller.old (S.Domains.table store.old) → is_ok result ≡ true → Running (S.Domains.frame store.old).vars found smaller.new (S.Domains.table store.new) }
    ensures same_saved { S.Domains.saved store.new ≡ S.Domains.saved store.old }
    ensures same_frame { S.Domains.frame store.new ≡ S.Domains.frame store.old }
{
    let kept = store.keep(x, row);
    if kept.smaller {
        sets::insert(smaller, x);
    }
    if kept.empty {
        return Err(Failed);
    }
    Ok(())
}
