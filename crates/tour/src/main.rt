// A clerk's afternoon: a cabinet is ordered, choices are made, taken back and made otherwise, and after each call the values left are shown.
#![tactic(auto)]

ghost use Rattle.std.specs.Prelude.{◌≡◌, true, false, ℤ, pos, ◌+ℤ◌, ◌≤ℤ◌};
ghost use Rattle.std.specs.Iterator.{at_most};
ghost use Rattle.filters.specs.Visits.{ahead};

use copying::Copying;
use offsets::{Offset, Offsets};
use rules::{Bank, Joined};
use session::Session;
use sessions::{Answer, Call};
use std::{fmt, io};
use tables::{Domains, Levels, rows};

// The cabinet's variables.
const OPENING: usize = 0;

const DOOR: usize = 1;

const FRAME: usize = 2;

const SHELF: usize = 3;

// How many words four variables and two saved tables take.
const WORDS: usize = 16 * 4 * 3;

// The joiner's rules: the opening is one wider than the door, the frame two wider than the opening.
const SIZES: [Offset; 2] = [
    Offset {
        x: OPENING,
        y: DOOR,
        c: 1,
    },
    Offset {
        x: FRAME,
        y: OPENING,
        c: 2,
    },
];

// The fitter's rule: the shelf is four narrower than the door.
const FITTINGS: [Offset; 1] = [Offset {
    x: SHELF,
    y: DOOR,
    c: -4,
}];

// What the clerk asks for.
const CALLS: [Call; 16] = [
    Call::Save,
    Call::Settle,
    Call::Save,
    Call::Narrow {
        x: FRAME,
        lo: 9,
        hi: 11,
    },
    Call::Strike { x: DOOR, v: 512 },
    Call::Settle,
    Call::Restore,
    Call::Save,
    Call::Narrow {
        x: SHELF,
        lo: 0,
        hi: 1,
    },
    Call::Strike { x: FRAME, v: 7 },
    Call::Settle,
    Call::Settle,
    Call::Restore,
    Call::Restore,
    Call::Strike { x: OPENING, v: 8 },
    Call::Settle,
];

// The last value of the run of values that begins at `lo`.
fn run_end<S: Domains>(store: &S, x: usize, lo: i32) -> i32
    ensures from { lo ≤ℤ result }
    ensures bound { lo ≤ℤ pos 511 → result ≤ℤ pos 511 }
    ensures run { (u : ℤ) → (lo +ℤ pos 1) ≤ℤ u → u ≤ℤ result → S.Domains.table store.now x u ≡ true }
    ensures end { S.Domains.table store.now x (result +ℤ pos 1) ≡ false }
{
    for hi in lo..511 {
        if !store.has(x, hi + 1) {
            return hi;
        }
    }
    lo.max(511)
}

// The runs of values of variable x that are still to come, each by its ends.
#[derive(Drop)]
struct Runs<'s, S> {
    store: &'s S,
    x: usize,
    from: i32,
}

impl<'s, S: Domains> Iterator for Runs<'s, S> {
    type Item = (i32, i32);

    ghost remaining = { λ s. at_most (ahead s.from) };

    fn next(&mut self) -> Option<(i32, i32)> {
        let lo = self.store.next(self.x, self.from)?;
        let hi = run_end(self.store, self.x, lo);
        self.from = hi + 1;
        Some((lo, hi))
    }
}

// The values left of variable x, runs of two or more as lo..hi.
#[derive(Drop)]
struct Left<'s, S> {
    store: &'s S,
    x: usize,
}

impl<'s, S: Domains> fmt::Display for Left<'s, S> {
    fn fmt<W: fmt::Write>(&self, f: &mut fmt::Formatter<W>) -> fmt::Result {
        write!(f, "x{}", self.x)?;
        let runs = Runs {
            store: self.store,
            x: self.x,
            from: -512,
        };
        for (lo, hi) in runs {
            if lo == hi {
                write!(f, " {lo}")?;
            } else {
                write!(f, " {lo}..{hi}")?;
            }
        }
        Ok(())
    }
}

// Prints every variable, by a `for`, since each line that is printed may fail.
fn show_all<S: Domains>(rt: &HostRuntime, store: &S) -> io::Result<()> {
    for x in 0..store.variables() {
        println!(rt; "{}", Left { store, x })?;
    }
    Ok(())
}

// The offer as it stands in the catalogue.
fn set_up<S: Domains>(store: &mut S) {
    let _opening = store.keep(OPENING, rows::interval(1, 12));
    let _door = store.keep(DOOR, rows::without(rows::interval(2, 10), 5));
    let _frame = store.keep(FRAME, rows::interval(1, 20));
    let _shelf = store.keep(SHELF, rows::interval(0, 5));
}

// Plays the calls one after another, and shows each with its answer and the values left.
fn afternoon<S: Levels, B: Bank>(
    rt: &HostRuntime,
    store: &mut S,
    bank: &B,
    calls: &[Call],
) -> io::Result<()> {
    let mut session = Session::begin(store, bank);
    for call in calls {
        let mut answers = [Answer::Done];
        session.play(store, bank, &[*call], &mut answers);
        println!(rt; "{call}: {}", answers[0])?;
        show_all(rt, store)?;
    }
    Ok(())
}

fn main(rt: HostRuntime) -> io::Result<()> {
    let mut words = [u64::MAX; WORDS];
    let mut store = Copying::new(&mut words, 4, 2);
    set_up(&mut store);
    let bank = Joined {
        first: Offsets::new(&SIZES),
        second: Offsets::new(&FITTINGS),
    };
    // One line or another: no plainer by the methods of a result.
    match Session::check(&store, &bank) {
        Ok(()) => println!(&rt; "begin: ok")?,
        Err(fault) => println!(&rt; "begin: refused {}", fault.number())?,
    }
    show_all(&rt, &store)?;
    afternoon(&rt, &mut store, &bank, &CALLS)
}
