// A store of tables that saves by copying, in words that the caller lends.
#![tactic(auto)]

ghost use Rattle.std.specs.Prelude.{◌≡◌, ◌+◌, ◌-◌, ◌<◌, ◌≤◌, false, not, ◌∷◌, length, is_ok, if◌then◌else◌, OnErr, ◌≢◌, nat_lt};
ghost use Rattle.tables.specs.Stores.{answer_keep, answer_save, answer_restore, newest, older};
ghost use Rattle.tables.specs.Tables.{kept};
ghost use Rattle.copying.specs.Meaning.{words_of, table_of, saved_of, frame_of};
ghost use Rattle.copying.specs.Memory.{fits, answer_check, row_at, narrowed, copied};
ghost use Rattle.copying.specs.Facts.{table_shaped, saved_shaped, saved_within};

pub mod store;

pub use store::Copying;
use tables::{Domains, Kept, Levels, Row, StoreFault, rows};

impl<'a> Copying<'a> {
    // Whether a store of n variables and at most `most` saved tables can be made in these words: three things that a caller has apart.
    pub fn check(words: &[u64], n: usize, most: usize) -> Result<(), StoreFault>
        ensures { result ≡ answer_check n most (length words.now) }
    {
        let in_limits = (1..=256).contains(&n) && (1..=16).contains(&most);
        if !in_limits || words.len() < 16 * (n * (most + 1)) {
            return Err(StoreFault::Limits);
        }
        Ok(())
    }

    // A store over words that hold the starting table; where the check refuses, one of no variable.
    pub fn new(words: &'a mut [u64], n: usize, most: usize) -> Copying<'a>
        ensures same { result.words.now ≡ words.old }
        ensures lent { result.words.ghost_name ≡ words.entry.ghost_name }
        ensures vars { result.n ≡ (if fits n most (length words.old) then n else 0) }
        ensures most { result.most ≡ (if fits n most (length words.old) then most else 1) }
        ensures none { result.depth ≡ 0 }
    {
        let (n, most) = Copying::check(words, n, most).map_or((0, 1), |()| (n, most));
        Copying {
            words,
            n,
            most,
            depth: 0,
        }
    }

    // The words of variable x, none where x is not below n.
    fn row(&self, x: usize) -> &[u64]
        ensures { result.now ≡ row_at self.now.n 0 x (words_of self.now) }
    {
        if x >= self.n {
            return &[];
        }
        let at = 16 * x;
        &self.words[at..at + 16]
    }

    // Writes the words of table number `from` over those of table number `to`; the table itself is number 0.
    fn copy(&mut self, from: usize, to: usize)
        requires from_within { from ≤ self.old.most }
        requires to_within { to ≤ self.old.most }
        requires apart { from ≢ to }
        ensures words { words_of self.new ≡ copied self.old.n from to (words_of self.old) }
        ensures lent { self.new.words.ghost_name ≡ self.old.words.ghost_name }
        ensures sizes { (self.new.n ≡ self.old.n) × (self.new.most ≡ self.old.most) × (self.new.depth ≡ self.old.depth) }
    {
        let len = 16 * self.n;
        let source = len * from;
        self.words.copy_within(source..source + len, len * to);
    }

    // Meets the words of variable x with the row's, and writes no other word. The row is read by its place, since of a slice that a `zip`
    // of `iter_mut` wrote nothing is known.
    fn meet(&mut self, x: usize, row: Row) -> Kept
        requires { x < self.old.n }
        ensures after { table_of self.new ≡ kept x row (table_of self.old) }
        ensures answer { result ≡ answer_keep (table_of self.old x) (table_of self.new x) }
        ensures same_saved { saved_of self.new ≡ saved_of self.old }
        ensures same_frame { frame_of self.new ≡ frame_of self.old }
        ensures memory { (words_of self.new ≡ narrowed self.old.n x row (words_of self.old)) × (self.new.depth ≡ self.old.depth) }
    {
        let at = 16 * x;
        let mut smaller = false;
        let mut empty = true;
        for (k, word) in self.words[at..at + 16].iter_mut().enumerate() {
            let before = *word;
            *word &= row[k];
            smaller |= *word != before;
            empty &= *word == 0;
        }
        Kept { smaller, empty }
    }

    // Whether as many tables are saved as can be.
    fn is_full(&self) -> bool
        ensures value { result ≡ not (nat_lt (length (saved_of self.now)) self.now.most) }
        ensures depth { result ≡ false → self.now.depth < self.now.most }
    {
        self.depth >= self.most
    }

    // Copies the table behind the saved ones, where there is room.
    fn push(&mut self)
        requires { self.old.depth < self.old.most }
        ensures noted { saved_of self.new ≡ table_of self.old ∷ saved_of self.old }
        ensures same_table { table_of self.new ≡ table_of self.old }
        ensures same_frame { frame_of self.new ≡ frame_of self.old }
        ensures memory { (words_of self.new ≡ copied self.old.n 0 (self.old.depth + 1) (words_of self.old)) × (self.new.depth ≡ self.old.depth + 1) }
    {
        self.copy(0, self.depth + 1);
        self.depth += 1;
    }

    // Copies the newest saved table over the table, where there is one.
    fn pop(&mut self)
        requires { 0 < self.old.depth }
        ensures back { saved_of self.old ≡ table_of self.new ∷ saved_of self.new }
        ensures same_frame { frame_of self.new ≡ frame_of self.old }
        ensures memory { (words_of self.new ≡ copied self.old.n self.old.depth 0 (words_of self.old)) × (self.new.depth ≡ self.old.depth - 1) }
    {
        self.copy(self.depth, 0);
        self.depth -= 1;
    }
}

impl<'a> Domains for Copying<'a> {
    ghost table = { table_of };

    ghost saved = { saved_of };

    ghost frame = { frame_of };

    ghost shaped = { λ s. table_shaped s.n 0 (words_of s) };

    ghost shapes = { λ s. saved_shaped s.n s.depth (words_of s) };

    ghost few = { λ s. s.few };

    ghost deep = { λ s. (s.some, s.low) };

    ghost within = { λ s. saved_within s.n s.depth s.most (words_of s) s.within };

    fn variables(&self) -> usize {
        self.n
    }

    fn has(&self, x: usize, v: i32) -> bool {
        rows::has(self.row(x), v)
    }

    fn size(&self, x: usize) -> usize {
        rows::size(self.row(x))
    }

    fn next(&self, x: usize, from: i32) -> Option<i32> {
        rows::next(self.row(x), from)
    }

    fn last(&self, x: usize, upto: i32) -> Option<i32> {
        rows::last(self.row(x), upto)
    }

    // The words of variable x are met with the row's, and no other word is written.
    fn keep(&mut self, x: usize, row: Row) -> Kept
        ensures after { table_of self.new ≡ kept x row (table_of self.old) }
        ensures answer { result ≡ answer_keep (table_of self.old x) (table_of self.new x) }
        ensures same_saved { saved_of self.new ≡ saved_of self.old }
        ensures same_frame { frame_of self.new ≡ frame_of self.old }
        ensures outside { self.old.n ≤ x → self.new ≡ self.old }
        ensures memory { (words_of self.new ≡ narrowed self.old.n x row (words_of self.old)) × (self.new.depth ≡ self.old.depth) }
    {
        if x >= self.n {
            return Kept {
                smaller: false,
                empty: true,
            };
        }
        self.meet(x, row)
    }
}

impl<'a> Levels for Copying<'a> {
    // The table's words are copied behind the saved ones, and no other word is written.
    fn save(&mut self) -> Result<(), StoreFault>
        ensures answer { result ≡ answer_save (length (saved_of self.old)) self.old.most }
        ensures noted { saved_of self.new ≡ (if is_ok result then table_of self.old ∷ saved_of self.old else saved_of self.old) }
        ensures same_table { table_of self.new ≡ table_of self.old }
        ensures same_frame { frame_of self.new ≡ frame_of self.old }
        ensures refused { OnErr result (self.new ≡ self.old) }
        ensures memory { (words_of self.new ≡ (if is_ok result then copied self.old.n 0 (self.old.depth + 1) (words_of self.old) else words_of self.old)) × (self.new.depth ≡ (if is_ok result then self.old.depth + 1 else self.old.depth)) }
    {
        if self.is_full() {
            return Err(StoreFault::Full);
        }
        self.push();
        Ok(())
    }

    // The newest copy's words are copied over the table's, and no other word is written.
    fn restore(&mut self) -> Result<(), StoreFault>
        ensures answer { result ≡ answer_restore (saved_of self.old) }
        ensures back { table_of self.new ≡ newest (saved_of self.old) (table_of self.old) }
        ensures left { saved_of self.new ≡ older (saved_of self.old) }
        ensures same_frame { frame_of self.new ≡ frame_of self.old }
        ensures refused { OnErr result (self.new ≡ self.old) }
        ensures memory { (words_of self.new ≡ (if is_ok result then copied self.old.n self.old.depth 0 (words_of self.old) else words_of self.old)) × (self.new.depth ≡ self.old.depth - 1) }
    {
        if self.depth == 0 {
            return Err(StoreFault::NoSave);
        }
        self.pop();
        Ok(())
    }
}
