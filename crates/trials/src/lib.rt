// What a caller knows of the words that it lent, and the edges of every limit, which the tests run.
#![tactic(auto)]

ghost use Rattle.std.specs.Prelude.{◌≡◌, not, length, drop, if◌then◌else◌, Ok, Err, MatchResult, ◌==◌, nat_lt};
ghost use Rattle.tables.specs.declared.fault.StoreFault.TheVariants.{Full, Limits};
ghost use Rattle.tables.specs.Stores.{answer_keep};
ghost use Rattle.copying.specs.Memory.{fits, need, table_in};
ghost use Rattle.tables.specs.Tables.{kept, size_of};
ghost use Rattle.trials.specs.Examples.{Computes};

use copying::Copying;
use tables::{Domains, Levels, Row, StoreFault, rows};

// Whether variable x would have a value left of a row: it is tried behind a save, and taken back. Where no save is granted nothing is tried.
pub fn try_out<S: Levels>(store: &mut S, x: usize, row: Row) -> Result<bool, StoreFault>
    ensures same_table { S.Domains.table store.new ≡ S.Domains.table store.old }
    ensures same_saved { S.Domains.saved store.new ≡ S.Domains.saved store.old }
    ensures same_frame { S.Domains.frame store.new ≡ S.Domains.frame store.old }
    ensures answer { result ≡ (if nat_lt (length (S.Domains.saved store.old)) (S.Domains.frame store.old).most then Ok (not (size_of (kept x row (S.Domains.table store.old) x) == 0)) else Err Full) }
{
    store.save()?;
    let kept = store.keep(x, row);
    store.restore()?;
    Ok(!kept.empty)
}

// Keeps a row at a variable of any store, and says whether it lost a value.
pub fn keep_at<S: Domains>(store: &mut S, x: usize, row: Row) -> bool
    ensures answer { result ≡ (answer_keep (S.Domains.table store.old x) (kept x row (S.Domains.table store.old) x)).smaller }
    ensures after { S.Domains.table store.new ≡ kept x row (S.Domains.table store.old) }
    ensures same_saved { S.Domains.saved store.new ≡ S.Domains.saved store.old }
    ensures same_frame { S.Domains.frame store.new ≡ S.Domains.frame store.old }
{
    store.keep(x, row).smaller
}

// Whoever lent the words knows them after a call that is proved for any store: the table that they hold, and the words past the need.
pub fn lend(
    words: &mut [u64],
    n: usize,
    most: usize,
    x: usize,
    row: Row,
) -> Result<bool, StoreFault>
    ensures answer { result ≡ (if fits n most (length words.old) then Ok (answer_keep (table_in n 0 words.old x) (kept x row (table_in n 0 words.old) x)).smaller else Err Limits) }
    ensures table { MatchResult result (λ _. table_in n 0 words.new ≡ kept x row (table_in n 0 words.old)) (λ _. words.new ≡ words.old) }
    ensures spare { drop (need n most) words.new ≡ drop (need n most) words.old }
{
    Copying::check(words, n, most)?;
    let mut store = Copying::new(words, n, most);
    Ok(keep_at(&mut store, x, row))
}

// The definitions compute: on a small table they give the sizes that one counts by hand, and so does the code on the row that it keeps.
pub fn small_table_counts() -> usize
    ensures defined { Computes }
    ensures counted { result ≡ 3 }
{
    let row = [0, 0, 0, 0, 0, 0, 0, 1 << 63, 1, 0, 0, 0, 0, 0, 0, 1 << 63];
    rows::size(&row)
}

#[cfg(test)]
mod session_tests;
#[cfg(test)]
mod tests;
