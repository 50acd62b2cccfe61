// A session: orders are given, rules are run until none removes more, and tables are saved and taken back.
#![tactic(auto)]

ghost use Rattle.std.specs.Prelude.{◌≡◌, ◌≤◌, ℤ, IfSome, is_some, min, true, false, not, ◌&&◌, [], length, drop, is_ok, if◌then◌else◌, Some, None, Option, OnErr, MatchResult, ◌==◌, int_le, nat_eq, nat_lt};
ghost use Rattle.tables.specs.Values.{is_value, equal_int};
ghost use Rattle.tables.specs.Rows.{in_row};
ghost use Rattle.tables.specs.Tables.{is_void, kept, size_of};
ghost use Rattle.sessions.specs.declared.fault.SessionFault.{SessionFault as Faults};
ghost use Rattle.sessions.specs.declared.call.Call.{Call as Calls};
ghost use Rattle.sessions.specs.declared.call.Call.TheVariants.{Strike, Narrow, Settle, Save, Restore};
ghost use Rattle.sessions.specs.declared.fault.SessionFault.TheVariants as fault;
ghost use Rattle.sessions.specs.declared.answer.Answer.TheVariants.{Refused};
ghost use Rattle.sessions.specs.Worlds.{is_failed, when, refusal, unfit, refused_start};
ghost use Rattle.sessions.specs.Steps.{values, settled, Settles, saved_by, restored_by};
ghost use Rattle.sessions.specs.Histories.{granted, Leads};
ghost use Rattle.agenda.specs.Meaning.{waits};
ghost use Rattle.session.specs.declared.outcome.Ordered.TheVariants.{Done, Emptied};
ghost use Rattle.sessions.specs.declared.standing.Standing.TheVariants.{Failed, Stirred};
ghost use Rattle.sessions.specs.Agendas.{joined};
ghost use Rattle.rules.specs.Banks.{in_set, woken};
ghost use Rattle.session.specs.Answers.{answer_of_order, answer_of_settle, answer_of_plain, runs_of, end_of, verdict, or_rest};
ghost use Rattle.session.specs.Meaning.{world, Steps, Keeps, KeepsAlong, IsOrder, beginning, after_order, Begins, events};

mod failure;
pub mod outcome;
pub mod state;

use agenda::Agenda;
use failure::Failure;
pub use outcome::{Ordered, Propagated};
use rules::sets::Set;
use rules::{Bank, MOST, sets};
use sessions::{Answer, Call, SessionFault, Standing};
pub use state::Session;
use tables::{Domains, Levels, Row, StoreFault, rows};

// Whether one of the first n variables has no value.
fn has_empty<S: Domains>(store: &S, n: usize) -> bool
    ensures { result ≡ is_void n (S.Domains.table store.now) }
{
    (0..n).any(|x| store.size(x) == 0)
}

// Whether two numbers are values, and the first is not the greater.
fn is_range(lo: i32, hi: i32) -> bool
    ensures { result ≡ (is_value lo && (is_value hi && int_le lo hi)) }
{
    rows::is_value(lo) && rows::is_value(hi) && lo <= hi
}

// What an order to strike v keeps, if v is a value.
fn all_but(v: i32) -> Option<Row>
    ensures there { is_some result ≡ is_value v }
    ensures row { IfSome result (λ r. (u : ℤ) → in_row r u ≡ (is_value u && not (equal_int u v))) }
{
    rows::is_value(v).then(
        || -> Row
            ensures { (u : ℤ) → in_row result u ≡ (is_value u && not (equal_int u v)) }
        { rows::without(rows::all(), v) },
    )
}

// What an order to narrow to lo and hi keeps, if they are a range.
fn between(lo: i32, hi: i32) -> Option<Row>
    ensures there { is_some result ≡ (is_value lo && (is_value hi && int_le lo hi)) }
    ensures row { IfSome result (λ r. (u : ℤ) → in_row r u ≡ (is_value u && (int_le lo u && int_le u hi))) }
{
    is_range(lo, hi).then(
        || -> Row
            ensures { (u : ℤ) → in_row result u ≡ (is_value u && (int_le lo u && int_le u hi)) }
        { rows::interval(lo, hi) },
    )
}

// What a call answered, or its refusal, as an answer of a history.
fn told<T: Into<Answer>>(r: Result<T, SessionFault>) -> Answer
    ensures { MatchResult r (λ x. T.Into.converts x result) (λ e. result ≡ Refused e) }
{
    r.map_or_else(Answer::Refused, |x| x.into())
}

// How many values the variables of a store have.
fn total<S: Domains>(store: &S) -> usize
    ensures value { result ≡ values (S.Domains.frame store.now).vars (S.Domains.table store.now) }
    ensures bound { result ≤ 262144 }
{
    (0..store.variables()).map(|x| store.size(x)).sum()
}

// Whether the rules of a bank fit n variables, else the lowest that does not.
fn fitting<B: Bank>(bank: &B, n: usize) -> Result<(), SessionFault>
    requires few { length (B.Bank.rules bank.now) ≤ 256 }
    ensures { (rest : Option Faults) → unfit n 0 (B.Bank.rules bank.now) rest ≡ or_rest result rest }
{
    for rule in 0..bank.rules() {
        bank.fit(rule, n)
            .map_err(|fault| SessionFault::Rule { rule, fault })?;
    }
    Ok(())
}

// The store and the bank are given to each call, since their owner uses them between calls. Each public call that changes something stands
// on a private one that makes the step and has one way out to add the promises at.
impl Session {
    // Whether a session can begin: the store has variables, the bank at most 256 rules that all fit, and no domain is empty.
    pub fn check<S: Levels, B: Bank>(store: &S, bank: &B) -> Result<(), SessionFault>
        ensures { result ≡ verdict (refused_start (S.Domains.frame store.now).vars (B.Bank.rules bank.now) (S.Domains.table store.now)) }
    {
        let n = store.variables();
        if n == 0 {
            return Err(SessionFault::Variables);
        }
        if bank.rules() > MOST {
            return Err(SessionFault::Rules);
        }
        fitting(bank, n)?;
        if has_empty(store, n) {
            return Err(SessionFault::Empty);
        }
        Ok(())
    }

    // The state of a beginning: all rules wait where the check passes, and none where it refuses.
    fn opened<S: Levels, B: Bank>(store: &S, bank: &B) -> Session
        ensures { world result (S.Domains.table store.now) (S.Domains.saved store.now) ≡ beginning (refused_start (S.Domains.frame store.now).vars (B.Bank.rules bank.now) (S.Domains.table store.now)) (B.Bank.rules bank.now) (S.Domains.table store.now) (S.Domains.saved store.now) }
    {
        let (agenda, standing) = Session::check(store, bank).map_or(
            (Agenda::new(), Standing::Failed),
            |()| { (Agenda::all(bank.rules()), Standing::Stirred) },
        );
        Session {
            agenda,
            standing,
            saves: 0,
        }
    }

    // A session on a store and a bank; where the check refuses, one that stands failed for good.
    pub fn begin<S: Levels, B: Bank>(store: &S, bank: &B) -> Session
        ensures stands { world result (S.Domains.table store.now) (S.Domains.saved store.now) ≡ beginning (refused_start (S.Domains.frame store.now).vars (B.Bank.rules bank.now) (S.Domains.table store.now)) (B.Bank.rules bank.now) (S.Domains.table store.now) (S.Domains.saved store.now) }
        ensures promises { Begins (S.Domains.frame store.now) (B.Bank.rules bank.now) (S.Domains.table store.now) (S.Domains.saved store.now) (world result (S.Domains.table store.now) (S.Domains.saved store.now)) }
    {
        Session::opened(store, bank)
    }

    // The session stands failed, and no rule waits.
    fn fail(&mut self)
        ensures { (self.new.standing ≡ Failed) × (waits self.new.agenda ≡ []) × (self.new.saves ≡ self.old.saves) }
    {
        self.agenda = Agenda::new();
        self.standing = Standing::Failed;
    }

    // The rules that watch one of a set of variables and do not wait join the agenda.
    fn wake<B: Bank>(&mut self, bank: &B, changed: Set)
        ensures agenda { waits self.new.agenda ≡ joined (waits self.old.agenda) (woken (B.Bank.rules bank.now) (in_set changed)) }
        ensures same { (self.new.standing ≡ self.old.standing) × (self.new.saves ≡ self.old.saves) }
    {
        let rules = bank.woken(changed);
        self.agenda.join(rules);
    }

    // The same for the one variable x.
    fn wake_at<B: Bank>(&mut self, bank: &B, x: usize)
        ensures agenda { waits self.new.agenda ≡ joined (waits self.old.agenda) (woken (B.Bank.rules bank.now) (λ z. z == x && nat_lt x 256)) }
        ensures same { (self.new.standing ≡ self.old.standing) × (self.new.saves ≡ self.old.saves) }
    {
        let mut changed = sets::none();
        sets::insert(&mut changed, x);
        self.wake(bank, changed);
    }

    // Performs an order by which variable x keeps the values of a row.
    fn perform<S: Levels, B: Bank>(
        &mut self,
        store: &mut S,
        bank: &B,
        x: usize,
        row: Row,
    ) -> Ordered
        ensures world { world self.new (S.Domains.table store.new) (S.Domains.saved store.new) ≡ after_order (B.Bank.rules bank.now) x (kept x row (S.Domains.table store.old)) (world self.old (S.Domains.table store.old) (S.Domains.saved store.old)) }
        ensures answer { result ≡ (if nat_eq (size_of (kept x row (S.Domains.table store.old) x)) 0 then Emptied else Done) }
        ensures same_frame { S.Domains.frame store.new ≡ S.Domains.frame store.old }
    {
        let kept = store.keep(x, row);
        if kept.empty {
            self.fail();
            return Ordered::Emptied;
        }
        if kept.smaller {
            self.wake_at(bank, x);
        }
        self.standing = Standing::Stirred;
        Ordered::Done
    }

    // Whether an order on variable x of n is taken, if its numbers are in order.
    fn admit(&self, n: usize, x: usize) -> Result<(), SessionFault>
        ensures { result ≡ verdict (when (is_failed self.now.standing) fault.Failed (when (not (nat_lt x n)) fault.Variable None)) }
    {
        if self.standing == Standing::Failed {
            return Err(SessionFault::Failed);
        }
        if x >= n {
            return Err(SessionFault::Variable);
        }
        Ok(())
    }

    // An order by which variable x keeps the values of a row, unless it is refused; there is a row where the order's numbers are in order.
    fn order<S: Levels, B: Bank>(
        &mut self,
        store: &mut S,
        bank: &B,
        x: usize,
        row: Option<Row>,
    ) -> Result<Ordered, SessionFault>
        ensures step { (c : Calls) → IsOrder (S.Domains.frame store.old).vars c x row (S.Domains.table store.old) → Steps (S.Domains.frame store.old) (B.Bank.rules bank.now) c (answer_of_order result) (world self.old (S.Domains.table store.old) (S.Domains.saved store.old)) (world self.new (S.Domains.table store.new) (S.Domains.saved store.new)) }
        ensures refused { OnErr result ((self.new ≡ self.old) × (store.new ≡ store.old)) }
        ensures same_frame { S.Domains.frame store.new ≡ S.Domains.frame store.old }
    {
        self.admit(store.variables(), x)?;
        let row = row.ok_or(SessionFault::Value)?;
        Ok(self.perform(store, bank, x, row))
    }

    // Removes the value v of variable x.
    pub fn strike<S: Levels, B: Bank>(
        &mut self,
        store: &mut S,
        bank: &B,
        x: usize,
        v: i32,
    ) -> Result<Ordered, SessionFault>
        ensures step { Steps (S.Domains.frame store.old) (B.Bank.rules bank.now) (Strike x v) (answer_of_order result) (world self.old (S.Domains.table store.old) (S.Domains.saved store.old)) (world self.new (S.Domains.table store.new) (S.Domains.saved store.new)) }
        ensures promises { Keeps (S.Domains.frame store.old) (B.Bank.rules bank.now) (Strike x v) (answer_of_order result) (world self.old (S.Domains.table store.old) (S.Domains.saved store.old)) (world self.new (S.Domains.table store.new) (S.Domains.saved store.new)) }
        ensures refused { OnErr result ((self.new ≡ self.old) × (store.new ≡ store.old)) }
        ensures same_frame { S.Domains.frame store.new ≡ S.Domains.frame store.old }
    {
        // Asked here too, so that no row is made for an order that is refused.
        self.admit(store.variables(), x)?;
        self.order(store, bank, x, all_but(v))
    }

    // Keeps the values from lo to hi of variable x.
    pub fn narrow<S: Levels, B: Bank>(
        &mut self,
        store: &mut S,
        bank: &B,
        x: usize,
        lo: i32,
        hi: i32,
    ) -> Result<Ordered, SessionFault>
        ensures step { Steps (S.Domains.frame store.old) (B.Bank.rules bank.now) (Narrow x lo hi) (answer_of_order result) (world self.old (S.Domains.table store.old) (S.Domains.saved store.old)) (world self.new (S.Domains.table store.new) (S.Domains.saved store.new)) }
        ensures promises { Keeps (S.Domains.frame store.old) (B.Bank.rules bank.now) (Narrow x lo hi) (answer_of_order result) (world self.old (S.Domains.table store.old) (S.Domains.saved store.old)) (world self.new (S.Domains.table store.new) (S.Domains.saved store.new)) }
        ensures refused { OnErr result ((self.new ≡ self.old) × (store.new ≡ store.old)) }
        ensures same_frame { S.Domains.frame store.new ≡ S.Domains.frame store.old }
    {
        // As in `strike`.
        self.admit(store.variables(), x)?;
        self.order(store, bank, x, between(lo, hi))
    }

    // Runs the waiting rules, the first first, until none waits or one fails; what a run made smaller wakes the rules that watch it.
    fn propagate<S: Domains, B: Bank>(&mut self, store: &mut S, bank: &B) -> Result<usize, Failure>
        ensures settles { Settles (S.Domains.frame store.old).vars (B.Bank.rules bank.now) (waits self.old.agenda) (S.Domains.table store.old) (runs_of result) (end_of result) (S.Domains.table store.new) }
        ensures same_saved { S.Domains.saved store.new ≡ S.Domains.saved store.old }
        ensures same_frame { S.Domains.frame store.new ≡ S.Domains.frame store.old }
        ensures same_saves { self.new.saves ≡ self.old.saves }
        ensures idle { end_of result ≡ settled → waits self.new.agenda ≡ [] }
    {
        let mut runs = 0;
        while let Some(rule) = self.agenda.pop() {
            runs += 1;
            let smaller = bank.run(rule, store).map_err(|_| Failure { rule, runs })?;
            self.wake(bank, smaller);
        }
        Ok(runs)
    }

    // Settles, unless the session stands failed.
    fn try_settle<S: Levels, B: Bank>(
        &mut self,
        store: &mut S,
        bank: &B,
    ) -> Result<Propagated, SessionFault>
        ensures step { Steps (S.Domains.frame store.old) (B.Bank.rules bank.now) Settle (answer_of_settle result) (world self.old (S.Domains.table store.old) (S.Domains.saved store.old)) (world self.new (S.Domains.table store.new) (S.Domains.saved store.new)) }
        ensures refused { OnErr result ((self.new ≡ self.old) × (store.new ≡ store.old)) }
        ensures same_frame { S.Domains.frame store.new ≡ S.Domains.frame store.old }
    {
        if self.standing == Standing::Failed {
            return Err(SessionFault::Failed);
        }
        let before = total(store);
        match self.propagate(store, bank) {
            Ok(runs) => {
                self.standing = Standing::Settled;
                Ok(Propagated::Settled {
                    runs,
                    removed: before - total(store),
                })
            }
            Err(Failure { rule, runs }) => {
                self.fail();
                Ok(Propagated::Failed { rule, runs })
            }
        }
    }

    // Saves the table, unless the session does not stand settled or the store is full.
    fn try_save<S: Levels>(&mut self, store: &mut S) -> Result<(), SessionFault>
        ensures answer { result ≡ verdict (refusal (S.Domains.frame store.old).vars (S.Domains.frame store.old).most (world self.old (S.Domains.table store.old) (S.Domains.saved store.old)) Save) }
        ensures after { world self.new (S.Domains.table store.new) (S.Domains.saved store.new) ≡ (if is_ok result then saved_by (world self.old (S.Domains.table store.old) (S.Domains.saved store.old)) else world self.old (S.Domains.table store.old) (S.Domains.saved store.old)) }
        ensures refused { OnErr result ((self.new ≡ self.old) × (store.new ≡ store.old)) }
        ensures same_frame { S.Domains.frame store.new ≡ S.Domains.frame store.old }
    {
        match self.standing {
            Standing::Failed => return Err(SessionFault::Failed),
            Standing::Stirred => return Err(SessionFault::Stirred),
            Standing::Settled => {}
        }
        if self.saves >= 16 {
            return Err(SessionFault::Store(StoreFault::Full));
        }
        store.save()?;
        self.saves += 1;
        Ok(())
    }

    // Goes back to the session's last save, if it has one of its own.
    fn try_restore<S: Levels>(&mut self, store: &mut S) -> Result<(), SessionFault>
        ensures answer { result ≡ verdict (refusal (S.Domains.frame store.old).vars (S.Domains.frame store.old).most (world self.old (S.Domains.table store.old) (S.Domains.saved store.old)) Restore) }
        ensures after { world self.new (S.Domains.table store.new) (S.Domains.saved store.new) ≡ (if is_ok result then restored_by (world self.old (S.Domains.table store.old) (S.Domains.saved store.old)) else world self.old (S.Domains.table store.old) (S.Domains.saved store.old)) }
        ensures refused { OnErr result ((self.new ≡ self.old) × (store.new ≡ store.old)) }
        ensures same_frame { S.Domains.frame store.new ≡ S.Domains.frame store.old }
    {
        if self.saves == 0 {
            return Err(SessionFault::NoSave);
        }
        store.restore()?;
        self.agenda.clear();
        self.standing = Standing::Settled;
        self.saves -= 1;
        Ok(())
    }

    // Runs the waiting rules until none removes more, or one fails.
    pub fn settle<S: Levels, B: Bank>(
        &mut self,
        store: &mut S,
        bank: &B,
    ) -> Result<Propagated, SessionFault>
        ensures step { Steps (S.Domains.frame store.old) (B.Bank.rules bank.now) Settle (answer_of_settle result) (world self.old (S.Domains.table store.old) (S.Domains.saved store.old)) (world self.new (S.Domains.table store.new) (S.Domains.saved store.new)) }
        ensures promises { Keeps (S.Domains.frame store.old) (B.Bank.rules bank.now) Settle (answer_of_settle result) (world self.old (S.Domains.table store.old) (S.Domains.saved store.old)) (world self.new (S.Domains.table store.new) (S.Domains.saved store.new)) }
        ensures refused { OnErr result ((self.new ≡ self.old) × (store.new ≡ store.old)) }
        ensures same_frame { S.Domains.frame store.new ≡ S.Domains.frame store.old }
    {
        self.try_settle(store, bank)
    }

    // Saves the table of a session that stands settled.
    pub fn save<S: Levels, B: Bank>(&mut self, store: &mut S, bank: &B) -> Result<(), SessionFault>
        ensures step { Steps (S.Domains.frame store.old) (B.Bank.rules bank.now) Save (answer_of_plain result) (world self.old (S.Domains.table store.old) (S.Domains.saved store.old)) (world self.new (S.Domains.table store.new) (S.Domains.saved store.new)) }
        ensures promises { Keeps (S.Domains.frame store.old) (B.Bank.rules bank.now) Save (answer_of_plain result) (world self.old (S.Domains.table store.old) (S.Domains.saved store.old)) (world self.new (S.Domains.table store.new) (S.Domains.saved store.new)) }
        ensures refused { OnErr result ((self.new ≡ self.old) × (store.new ≡ store.old)) }
        ensures same_frame { S.Domains.frame store.new ≡ S.Domains.frame store.old }
    {
        self.try_save(store)
    }

    // Goes back to the session's last save, and drops it.
    pub fn restore<S: Levels, B: Bank>(
        &mut self,
        store: &mut S,
        bank: &B,
    ) -> Result<(), SessionFault>
        ensures step { Steps (S.Domains.frame store.old) (B.Bank.rules bank.now) Restore (answer_of_plain result) (world self.old (S.Domains.table store.old) (S.Domains.saved store.old)) (world self.new (S.Domains.table store.new) (S.Domains.saved store.new)) }
        ensures promises { Keeps (S.Domains.frame store.old) (B.Bank.rules bank.now) Restore (answer_of_plain result) (world self.old (S.Domains.table store.old) (S.Domains.saved store.old)) (world self.new (S.Domains.table store.new) (S.Domains.saved store.new)) }
        ensures refused { OnErr result ((self.new ≡ self.old) × (store.new ≡ store.old)) }
        ensures same_frame { S.Domains.frame store.new ≡ S.Domains.frame store.old }
    {
        self.try_restore(store)
    }

    // Makes the call that is named: a caller lists calls as values, so they are an enum and no closures.
    fn dispatch<S: Levels, B: Bank>(&mut self, store: &mut S, bank: &B, call: Call) -> Answer
        ensures step { Steps (S.Domains.frame store.old) (B.Bank.rules bank.now) call result (world self.old (S.Domains.table store.old) (S.Domains.saved store.old)) (world self.new (S.Domains.table store.new) (S.Domains.saved store.new)) }
        ensures refused { granted result ≡ false → (self.new ≡ self.old) × (store.new ≡ store.old) }
        ensures same_frame { S.Domains.frame store.new ≡ S.Domains.frame store.old }
    {
        match call {
            Call::Strike { x, v } => told(self.strike(store, bank, x, v)),
            Call::Narrow { x, lo, hi } => told(self.narrow(store, bank, x, lo, hi)),
            Call::Settle => told(self.settle(store, bank)),
            Call::Save => told(self.save(store, bank)),
            Call::Restore => told(self.restore(store, bank)),
        }
    }

    // One call, by its name.
    pub fn answer<S: Levels, B: Bank>(&mut self, store: &mut S, bank: &B, call: Call) -> Answer
        ensures step { Steps (S.Domains.frame store.old) (B.Bank.rules bank.now) call result (world self.old (S.Domains.table store.old) (S.Domains.saved store.old)) (world self.new (S.Domains.table store.new) (S.Domains.saved store.new)) }
        ensures promises { Keeps (S.Domains.frame store.old) (B.Bank.rules bank.now) call result (world self.old (S.Domains.table store.old) (S.Domains.saved store.old)) (world self.new (S.Domains.table store.new) (S.Domains.saved store.new)) }
        ensures refused { granted result ≡ false → (self.new ≡ self.old) × (store.new ≡ store.old) }
        ensures same_frame { S.Domains.frame store.new ≡ S.Domains.frame store.old }
    {
        self.dispatch(store, bank, call)
    }

    // Plays a list of calls and writes the answers, as many as both lists have room for; says how many. The answers are written by their
    // place, since of a slice that a `zip` of `iter_mut` wrote nothing is known. Two lists, as the session asks for no memory and the calls are
    // read only.
    pub fn play<S: Levels, B: Bank>(
        &mut self,
        store: &mut S,
        bank: &B,
        calls: &[Call],
        answers: &mut [Answer],
    ) -> usize
        ensures count { result ≡ min (length calls.now) (length answers.old) }
        ensures steps { Leads (S.Domains.frame store.old).vars (S.Domains.frame store.old).most (B.Bank.rules bank.now) (world self.old (S.Domains.table store.old) (S.Domains.saved store.old)) (events calls.now answers.new result) (world self.new (S.Domains.table store.new) (S.Domains.saved store.new)) }
        ensures promises { KeepsAlong (S.Domains.frame store.old) (B.Bank.rules bank.now) (events calls.now answers.new result) (world self.old (S.Domains.table store.old) (S.Domains.saved store.old)) (world self.new (S.Domains.table store.new) (S.Domains.saved store.new)) }
        ensures rest { (length answers.new ≡ length answers.old) × (drop result answers.new ≡ drop result answers.old) }
        ensures same_frame { S.Domains.frame store.new ≡ S.Domains.frame store.old }
    {
        let count = calls.len().min(answers.len());
        for (k, call) in calls[..count].iter().enumerate() {
            answers[k] = self.answer(store, bank, *call);
        }
        count
    }
}
