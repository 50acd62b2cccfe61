// What a store of tables means, and what each store promises.
ghost use Rattle.std.specs.Prelude.{◌≡◌, ◌<◌, ◌≤◌, List, ◌∷◌, length, ℤ, pos, negsuc, ◌≤ℤ◌, IfSome, is_ok, if◌then◌else◌, OnErr};
ghost use Rattle.tables.specs.Tables.{Table, size_of, Shaped, AllShaped, kept, Next, Last};
ghost use Rattle.tables.specs.Stores.{Frame, answer_keep, answer_save, answer_restore, newest, older};

use crate::fault::StoreFault;
use crate::kept::Kept;
use crate::rows::Row;

// A table of domains, one for each of n variables; a variable not below n counts as an empty domain.
pub trait Domains {
    // the domain of each variable
    ghost table: { Self → Table };

    // the saved tables, the newest first
    ghost saved: { Self → List Table };

    // what no call changes: n, L, which memory was lent and what it holds past the store's need
    ghost frame: { Self → Frame };

    // n, the number of variables
    fn variables(&self) -> usize
        ensures value { result ≡ (frame self.now).vars }
        ensures bound { result ≤ 256 };

    // Whether variable x has the value v.
    fn has(&self, x: usize, v: i32) -> bool
        ensures { result ≡ table self.now x v };

    // How many values variable x has; the bound stands beside it for callers that add sizes up.
    fn size(&self, x: usize) -> usize
        ensures value { result ≡ size_of (table self.now x) }
        ensures bound { result ≤ 1024 };

    // The next value of variable x at or above a number, if there is one. The interface tells plain numbers, so their bounds are a clause.
    fn next(&self, x: usize, from: i32) -> Option<i32>
        ensures value { Next (table self.now x) from result }
        ensures bounds { IfSome result (λ v. (negsuc 511 ≤ℤ v) × (v ≤ℤ pos 511)) };

    // The last value of variable x at or below a number, if there is one.
    fn last(&self, x: usize, upto: i32) -> Option<i32>
        ensures value { Last (table self.now x) upto result }
        ensures bounds { IfSome result (λ v. (negsuc 511 ≤ℤ v) × (v ≤ℤ pos 511)) };

    // Variable x keeps only the values of a row; all else stays. That two stores have the same saved tables and frame is said in each
    // contract, since no law or field of one store can say it.
    fn keep(&mut self, x: usize, row: Row) -> Kept
        ensures after { table self.new ≡ kept x row (table self.old) }
        ensures answer { result ≡ answer_keep (table self.old x) (table self.new x) }
        ensures same_saved { saved self.new ≡ saved self.old }
        ensures same_frame { frame self.new ≡ frame self.old }
        ensures outside { (frame self.old).vars ≤ x → self.new ≡ self.old };

    // What each store proves: nothing but values, and nothing for other variables.
    ghost shaped: { (s : Self) → Shaped (frame s).vars (table s) };

    // So it is with each saved table.
    ghost shapes: { (s : Self) → AllShaped (frame s).vars (saved s) };

    // n is at most 256, L from 1 to 16, and at most L tables are saved.
    ghost few: { (s : Self) → (frame s).vars ≤ 256 };

    ghost deep: { (s : Self) → (1 ≤ (frame s).most) × ((frame s).most ≤ 16) };

    ghost within: { (s : Self) → length (saved s) ≤ (frame s).most };
}

// A table with a list of saved tables, of which there are at most L.
pub trait Levels: Domains {
    // Notes the table as the newest saved one; refused exactly where L tables are saved, and then nothing changes.
    fn save(&mut self) -> Result<(), StoreFault>
        ensures answer { result ≡ answer_save (length (Self.Domains.saved self.old)) (Self.Domains.frame self.old).most }
        ensures noted { Self.Domains.saved self.new ≡ (if is_ok result then Self.Domains.table self.old ∷ Self.Domains.saved self.old else Self.Domains.saved self.old) }
        ensures same_table { Self.Domains.table self.new ≡ Self.Domains.table self.old }
        ensures same_frame { Self.Domains.frame self.new ≡ Self.Domains.frame self.old }
        ensures refused { OnErr result (self.new ≡ self.old) };

    // Takes the newest saved table back; refused exactly where none is saved, and then nothing changes.
    fn restore(&mut self) -> Result<(), StoreFault>
        ensures answer { result ≡ answer_restore (Self.Domains.saved self.old) }
        ensures back { Self.Domains.table self.new ≡ newest (Self.Domains.saved self.old) (Self.Domains.table self.old) }
        ensures left { Self.Domains.saved self.new ≡ older (Self.Domains.saved self.old) }
        ensures same_frame { Self.Domains.frame self.new ≡ Self.Domains.frame self.old }
        ensures refused { OnErr result (self.new ≡ self.old) };
}
