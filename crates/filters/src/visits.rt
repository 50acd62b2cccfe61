// The values of a domain one after another, as a filter visits them.
ghost use Rattle.std.specs.Prelude.{◌≡◌, negsuc};
ghost use Rattle.std.specs.Iterator.{at_most};
ghost use Rattle.filters.specs.Visits.{ahead, Visits};

use tables::Domains;

// Those of variable x from `from` on are still to come, ascending. Not compared or printed, as stores are not.
#[derive(Clone, Copy)]
pub struct Walk<'s, S> {
    pub(crate) store: &'s S,
    pub(crate) x: usize,
    pub(crate) from: i32,
}

// The values of variable x, ascending.
pub fn values<S: Domains>(store: &S, x: usize) -> Walk<'_, S>
    ensures store { result.store.now ≡ store.now }
    ensures variable { result.x ≡ x }
    ensures start { result.from ≡ negsuc 511 }
{
    Walk {
        store,
        x,
        from: -512,
    }
}

impl<'s, S: Domains> Iterator for Walk<'s, S> {
    type Item = i32;

    ghost next_gives = { λ s v t. Visits (S.Domains.table s.store.now s.x) s.from v t.from × (t.store.now ≡ s.store.now) × (t.x ≡ s.x) };

    ghost remaining = { λ s. at_most (ahead s.from) };

    fn next(&mut self) -> Option<i32> {
        let v = self.store.next(self.x, self.from)?;
        self.from = v + 1;
        Some(v)
    }
}
