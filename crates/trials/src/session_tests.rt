// Every refusal of a session, its limits, and the order in which the rules run.
use copying::Copying;
use offsets::{Offset, Offsets};
use rules::{Bank, Joined, RuleFault};
use session::{Ordered, Propagated, Session};
use sessions::{Answer, Call, SessionFault};
use std::process::Abort;
use std::test::Fail;
use tables::{Domains, Levels, StoreFault, rows};

// x = y + 1, where x is variable 0 and y is variable 1.
const PLUS: Offset = Offset { x: 0, y: 1, c: 1 };

// A rule that removes nothing: variable 0 is itself.
const SAME: Offset = Offset { x: 0, y: 0, c: 0 };

// A save is refused, as the store is full.
const FULL: SessionFault = SessionFault::Store(StoreFault::Full);

fn strike(x: usize, v: i32) -> Call {
    Call::Strike { x, v }
}

fn narrow(x: usize, lo: i32, hi: i32) -> Call {
    Call::Narrow { x, lo, hi }
}

fn settled(runs: usize, removed: usize) -> Answer {
    Answer::Settled { runs, removed }
}

fn failed(rule: usize, runs: usize) -> Answer {
    Answer::Failed { rule, runs }
}

fn offset(x: usize, y: usize, c: i32) -> Offset {
    Offset { x, y, c }
}

fn misfit(rule: usize, fault: RuleFault) -> SessionFault {
    SessionFault::Rule { rule, fault }
}

// Memory for two variables and one save, with x in {1, 3, 9} and y in {0, 4}: bit v of a variable's word 8 is the value v.
fn start() -> [u64; 64] {
    let mut words = [0; 64];
    words[8] = 1 << 1 | 1 << 3 | 1 << 9;
    words[24] = 1 << 0 | 1 << 4;
    words
}

// Each call gets its answer.
fn go<B: Bank>(
    rt: &impl Abort,
    session: &mut Session,
    store: &mut Copying<'_>,
    bank: &B,
    events: &[(Call, Answer)],
) {
    for event in events {
        let (call, answer) = *event;
        assert_eq!(rt; session.answer(store, bank, call), answer);
    }
}

// A call is refused after the calls `before`. A second session is not given it, and answers the calls `after` the same and has the same words in the end.
fn compare(rt: &impl Abort, before: &[Call], call: Call, fault: SessionFault, after: &[Call]) {
    let rules = [PLUS];
    let bank = Offsets::new(&rules);
    let mut words = start();
    let mut same = start();
    let mut store = Copying::new(&mut words, 2, 1);
    let mut twin = Copying::new(&mut same, 2, 1);
    let mut session = Session::begin(&store, &bank);
    let mut other = Session::begin(&twin, &bank);
    let mut answers = [Answer::Done; 5];
    let mut again = [Answer::Done; 5];
    session.play(&mut store, &bank, before, &mut answers);
    other.play(&mut twin, &bank, before, &mut again);
    let answer = session.answer(&mut store, &bank, call);
    assert_eq!(rt; answer, Answer::Refused(fault));
    session.play(&mut store, &bank, after, &mut answers);
    other.play(&mut twin, &bank, after, &mut again);
    assert_eq!(rt; answers, again);
    drop(store);
    drop(twin);
    assert_eq!(rt; words, same);
}

// A call is refused, by this number, and changes neither the words nor what later calls answer.
fn refuses(rt: &impl Abort, before: &[Call], call: Call, fault: SessionFault, number: u8) {
    let order = strike(0, 3);
    let after = [
        Call::Save,
        order,
        Call::Settle,
        Call::Restore,
        Call::Restore,
    ];
    assert_eq!(rt; fault.number(), number);
    compare(rt, before, call, fault, &[]);
    compare(rt, before, call, fault, &after);
}

// A beginning is refused, by this number; begun in spite of it, the session refuses each call, and changes no word.
fn stuck(
    rt: &impl Abort,
    first: [u64; 64],
    n: usize,
    rules: &[Offset],
    fault: SessionFault,
    number: u8,
) {
    let bank = Offsets::new(rules);
    let mut words = first;
    let mut store = Copying::new(&mut words, n, 1);
    assert_eq!(rt; fault.number(), number);
    assert_eq!(rt; Session::check(&store, &bank), Err(fault));
    let mut session = Session::begin(&store, &bank);
    let no = Answer::Refused(SessionFault::Failed);
    let events = [
        (strike(0, 1), no),
        (strike(9, 512), no),
        (narrow(0, 0, 9), no),
        (Call::Settle, no),
        (Call::Save, no),
        (Call::Restore, Answer::Refused(SessionFault::NoSave)),
        (Call::Settle, no),
    ];
    go(rt, &mut session, &mut store, &bank, &events);
    drop(store);
    assert_eq!(rt; words, first);
}

// Orders on no variable, and with numbers that are no values; the variable is looked at first.
#[test]
fn orders_that_are_unfit(rt: HostRuntime) {
    let no = SessionFault::Variable;
    let bad = SessionFault::Value;
    refuses(&rt, &[Call::Settle], strike(2, 0), no, 6);
    refuses(&rt, &[], strike(usize::MAX, 512), no, 6);
    refuses(&rt, &[Call::Settle], narrow(2, 1, 0), no, 6);
    refuses(&rt, &[], narrow(usize::MAX, 0, 9), no, 6);
    refuses(&rt, &[Call::Settle], strike(0, 512), bad, 7);
    refuses(&rt, &[Call::Settle], strike(1, -513), bad, 7);
    refuses(&rt, &[], strike(0, i32::MIN), bad, 7);
    refuses(&rt, &[], strike(1, i32::MAX), bad, 7);
    refuses(&rt, &[Call::Settle], narrow(0, 1, 0), bad, 7);
    refuses(&rt, &[], narrow(0, -513, 9), bad, 7);
    refuses(&rt, &[], narrow(1, 0, 512), bad, 7);
}

// Each call on a session that an order left without a value, but for restore; that it failed is looked at first.
#[test]
fn calls_on_a_failed_session(rt: HostRuntime) {
    let empties = narrow(0, 4, 8);
    let before = [Call::Settle, Call::Save, empties];
    let no = SessionFault::Failed;
    refuses(&rt, &before, strike(0, 1), no, 10);
    refuses(&rt, &before, strike(2, 512), no, 10);
    refuses(&rt, &before, strike(0, 512), no, 10);
    refuses(&rt, &before, narrow(0, 0, 9), no, 10);
    refuses(&rt, &before, narrow(2, 1, 0), no, 10);
    refuses(&rt, &before, Call::Settle, no, 10);
    refuses(&rt, &before, Call::Save, no, 10);
    refuses(&rt, &[empties], Call::Save, no, 10);
    refuses(&rt, &[empties], Call::Restore, SessionFault::NoSave, 13);
}

#[test]
fn saves_and_restores_out_of_place(rt: HostRuntime) {
    let idle = strike(0, 511);
    let saved = [Call::Settle, Call::Save];
    let back = [Call::Settle, Call::Save, Call::Restore];
    let full_too = [Call::Settle, Call::Save, idle];
    let stirred = SessionFault::Stirred;
    refuses(&rt, &[], Call::Save, stirred, 11);
    refuses(&rt, &[Call::Settle, idle], Call::Save, stirred, 11);
    refuses(&rt, &full_too, Call::Save, stirred, 11);
    refuses(&rt, &saved, Call::Save, FULL, 12);
    refuses(&rt, &[], Call::Restore, SessionFault::NoSave, 13);
    refuses(&rt, &back, Call::Restore, SessionFault::NoSave, 13);
}

// No variable, rules that do not fit and an empty domain, in the order in which they are looked at.
#[test]
fn beginnings_that_are_refused(rt: HostRuntime) {
    let far = offset(2, 1, 1024);
    let wide = offset(0, 1, 1024);
    let low = offset(0, 1, -1024);
    let named = misfit(1, RuleFault::Variable);
    let ranged = misfit(1, RuleFault::Value);
    let mut one_empty = start();
    one_empty[24] = 0;
    stuck(&rt, start(), 0, &[PLUS], SessionFault::Variables, 5);
    stuck(&rt, start(), 3, &[far], SessionFault::Variables, 5);
    stuck(&rt, start(), 2, &[PLUS, far], named, 6);
    stuck(&rt, start(), 2, &[PLUS, wide, far], ranged, 7);
    stuck(&rt, start(), 2, &[PLUS, low], ranged, 7);
    stuck(&rt, one_empty, 2, &[PLUS, far, wide], named, 6);
    stuck(&rt, one_empty, 2, &[PLUS], SessionFault::Empty, 9);
    stuck(&rt, one_empty, 2, &[], SessionFault::Empty, 9);
    let mut words = start();
    let store = Copying::new(&mut words, 2, 1);
    let edges = [offset(0, 1, 1023), offset(1, 0, -1023)];
    assert_eq!(rt; Session::check(&store, &Offsets::new(&edges)), Ok(()));
}

// 256 rules over 256 variables; one rule more is refused, in one bank or in two.
#[test]
fn rules_at_their_limit(rt: HostRuntime) -> Result<(), Fail> {
    let mut vec = vec![in rt.alloc(); u64::MAX; 8192]?;
    let mut store = Copying::new(vec.as_mut_slice(), 256, 1);
    let list = vec![in rt.alloc(); offset(255, 0, 0); 257]?;
    let rules = list.as_slice();
    if rules.len() < 257 {
        return Err(Fail::new("too few rules"));
    }
    stuck(&rt, start(), 2, rules, SessionFault::Rules, 5);
    let whole = Offsets::new(&rules[0..256]);
    assert_eq!(rt; Session::check(&store, &whole), Ok(()));
    let first = Offsets::new(&rules[0..255]);
    let second = Offsets::new(&rules[0..2]);
    let more = Session::check(&store, &Joined { first, second });
    assert_eq!(rt; more, Err(SessionFault::Rules));
    let second = Offsets::new(&rules[0..1]);
    let bank = Joined { first, second };
    let mut session = Session::begin(&store, &bank);
    // Nothing is to be removed, so each rule runs once. Then the order wakes all, and the first to run takes the value from variable 0 and so waits again.
    let events = [
        (Call::Settle, settled(256, 0)),
        (strike(256, 0), Answer::Refused(SessionFault::Variable)),
        (strike(255, 511), Answer::Done),
        (Call::Settle, settled(257, 1)),
    ];
    go(&rt, &mut session, &mut store, &bank, &events);
    assert!(rt; !store.has(0, 511) && store.has(1, 511));
    Ok(())
}

#[test]
fn orders_at_the_ends_of_the_values(rt: HostRuntime) {
    let rules = [SAME];
    let bank = Offsets::new(&rules);
    let mut words = [u64::MAX; 32];
    let mut store = Copying::new(&mut words, 1, 1);
    let mut session = Session::begin(&store, &bank);
    let bad = Answer::Refused(SessionFault::Value);
    let ends = [
        (strike(0, 512), bad),
        (strike(0, -513), bad),
        (strike(0, 511), Answer::Done),
        (strike(0, -512), Answer::Done),
        (narrow(0, -512, 512), bad),
        (narrow(0, -513, 511), bad),
        (narrow(0, -512, 511), Answer::Done),
    ];
    go(&rt, &mut session, &mut store, &bank, &ends);
    assert!(rt; !store.has(0, 511) && !store.has(0, -512));
    assert_eq!(rt; store.size(0), 1022);
    let point = [
        (narrow(0, 510, 509), bad),
        (narrow(0, 510, 510), Answer::Done),
    ];
    go(&rt, &mut session, &mut store, &bank, &point);
    assert!(rt; store.has(0, 510) && store.size(0) == 1);
}

// Sixteen saves, each with a value less; the seventeenth is refused, and so is the seventeenth restore.
#[test]
fn sixteen_saves_come_back(rt: HostRuntime) {
    let rules = [SAME];
    let bank = Offsets::new(&rules);
    let mut words = [u64::MAX; 272];
    let mut store = Copying::new(&mut words, 1, 16);
    let mut session = Session::begin(&store, &bank);
    let once = (Call::Settle, settled(1, 0));
    for v in 0..16u8 {
        let order = (strike(0, i32::from(v)), Answer::Done);
        let events = [once, (Call::Save, Answer::Done), order];
        go(&rt, &mut session, &mut store, &bank, &events);
    }
    let more = [
        once,
        (Call::Save, Answer::Refused(FULL)),
        (strike(0, 16), Answer::Done),
    ];
    go(&rt, &mut session, &mut store, &bank, &more);
    assert_eq!(rt; store.size(0), 1007);
    for v in (0..16u8).rev() {
        assert!(rt; !store.has(0, i32::from(v)));
        assert_eq!(rt; session.restore(&mut store, &bank), Ok(()));
        assert!(rt; store.has(0, i32::from(v)));
    }
    assert_eq!(rt; store.size(0), 1024);
    // No rule waits any more, though the last order woke one.
    let end = [
        (Call::Restore, Answer::Refused(SessionFault::NoSave)),
        (Call::Save, Answer::Done),
        (Call::Settle, settled(0, 0)),
    ];
    go(&rt, &mut session, &mut store, &bank, &end);
}

// A table that the store saved by itself is none of the session's, and takes room from its saves.
#[test]
fn saves_made_before_the_session(rt: HostRuntime) {
    let rules = [SAME];
    let bank = Offsets::new(&rules);
    let mut words = [u64::MAX; 48];
    let mut store = Copying::new(&mut words, 1, 2);
    assert_eq!(rt; store.save(), Ok(()));
    assert!(rt; store.keep(0, rows::without(rows::all(), 7)).smaller);
    let mut session = Session::begin(&store, &bank);
    let no = (Call::Restore, Answer::Refused(SessionFault::NoSave));
    let events = [
        no,
        (Call::Settle, settled(1, 0)),
        (Call::Save, Answer::Done),
        (Call::Save, Answer::Refused(FULL)),
        (Call::Restore, Answer::Done),
        no,
    ];
    go(&rt, &mut session, &mut store, &bank, &events);
    assert_eq!(rt; store.size(0), 1023);
    assert_eq!(rt; store.restore(), Ok(()));
    assert_eq!(rt; store.size(0), 1024);
    // A save that the store gave back behind the session's back: the store's own refusal passes up, each time.
    let save = [(Call::Save, Answer::Done)];
    go(&rt, &mut session, &mut store, &bank, &save);
    assert_eq!(rt; store.restore(), Ok(()));
    let gone = SessionFault::Store(StoreFault::NoSave);
    assert_eq!(rt; gone.number(), 13);
    let refused = (Call::Restore, Answer::Refused(gone));
    go(&rt, &mut session, &mut store, &bank, &[refused, refused]);
    assert_eq!(rt; store.size(0), 1024);
}

// x = y + 1 leaves x = 1 and y = 0; then an order that takes nothing, and one that takes all.
#[test]
fn orders_that_take_nothing_or_all(rt: HostRuntime) {
    let rules = [PLUS];
    let bank = Offsets::new(&rules);
    let mut words = start();
    let mut store = Copying::new(&mut words, 2, 1);
    let mut session = Session::begin(&store, &bank);
    // The first run removes 3 and 9 of x and 4 of y, so the rule wakes itself, and its second run removes nothing.
    let runs = Propagated::Settled {
        runs: 2,
        removed: 3,
    };
    assert_eq!(rt; session.settle(&mut store, &bank), Ok(runs));
    assert!(rt; store.size(0) == 1 && store.has(0, 1));
    assert!(rt; store.size(1) == 1 && store.has(1, 0));
    let order = session.strike(&mut store, &bank, 0, 3);
    assert_eq!(rt; order, Ok(Ordered::Done));
    let save = session.save(&mut store, &bank);
    assert_eq!(rt; save, Err(SessionFault::Stirred));
    let events = [
        (Call::Settle, settled(0, 0)),
        (Call::Settle, settled(0, 0)),
        (Call::Save, Answer::Done),
    ];
    go(&rt, &mut session, &mut store, &bank, &events);
    let order = session.narrow(&mut store, &bank, 0, 2, 9);
    assert_eq!(rt; order, Ok(Ordered::Emptied));
    let settle = session.settle(&mut store, &bank);
    assert_eq!(rt; settle, Err(SessionFault::Failed));
    assert_eq!(rt; store.size(0), 0);
    assert_eq!(rt; session.restore(&mut store, &bank), Ok(()));
    assert!(rt; store.size(0) == 1 && store.has(0, 1));
}

// Rule 0 is b = a + 1, and rule 1, the second bank's only one, is c = b + 1; each variable has 0 to 9. Which rule fails is decided by the order of the orders.
#[test]
fn the_first_waiting_rule_of_two_banks(rt: HostRuntime) {
    let rules = [offset(1, 0, 1), offset(2, 1, 1), offset(3, 0, 0)];
    let first = Offsets::new(&rules[0..1]);
    let second = Offsets::new(&rules[1..2]);
    let bank = Joined { first, second };
    let mut words = [0; 96];
    words[8] = 1023;
    words[24] = 1023;
    words[40] = 1023;
    let mut store = Copying::new(&mut words, 3, 1);
    let second = Offsets::new(&rules[2..3]);
    let unfit = Session::check(&store, &Joined { first, second });
    assert_eq!(rt; unfit, Err(misfit(1, RuleFault::Variable)));
    let mut session = Session::begin(&store, &bank);
    // The first settle runs 0, 1, 0, 1, 0, which remove 2, 3, 1, 0 and 0 values.
    // In the second a has 0 to 3, so b has 1 to 4, and c none of 2 to 5.
    let low = (narrow(0, 0, 3), Answer::Done);
    let high = (narrow(2, 7, 9), Answer::Done);
    let events = [
        (Call::Settle, settled(5, 6)),
        (Call::Save, Answer::Done),
        low,
        high,
        (Call::Settle, failed(1, 2)),
        (Call::Save, Answer::Refused(SessionFault::Failed)),
        (Call::Restore, Answer::Done),
    ];
    go(&rt, &mut session, &mut store, &bank, &events);
    assert!(rt; store.size(0) == 8 && store.has(0, 0) && store.has(0, 7));
    assert!(rt; store.size(1) == 8 && store.has(1, 1) && store.has(1, 8));
    assert!(rt; store.size(2) == 8 && store.has(2, 2) && store.has(2, 9));
    // In the third c has 7 to 9, so b has 6 to 8, and a none of 5 to 7.
    let other = [high, low, (Call::Settle, failed(0, 2))];
    go(&rt, &mut session, &mut store, &bank, &other);
}

// As many calls are made and answers written as both lists have, and no more.
#[test]
fn as_many_answers_as_both_lists_have(rt: HostRuntime) {
    let rules = [PLUS];
    let bank = Offsets::new(&rules);
    let mut words = start();
    let mut store = Copying::new(&mut words, 2, 1);
    let mut session = Session::begin(&store, &bank);
    let calls = [Call::Settle, Call::Save, Call::Restore];
    let old = failed(9, 9);
    let done = Answer::Done;
    let mut long = [old; 5];
    assert_eq!(rt; session.play(&mut store, &bank, &calls, &mut long), 3);
    assert_eq!(rt; long, [settled(2, 3), done, done, old, old]);
    let mut short = [old; 2];
    assert_eq!(rt; session.play(&mut store, &bank, &calls, &mut short), 2);
    assert_eq!(rt; short, [settled(0, 0), done]);
    // The last call of the list was not made, so the save is still there.
    assert_eq!(rt; session.restore(&mut store, &bank), Ok(()));
    let last = session.restore(&mut store, &bank);
    assert_eq!(rt; last, Err(SessionFault::NoSave));
}
