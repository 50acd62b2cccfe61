// Every limit at its value and one past it, and the calls at the ends of the values.
use copying::Copying;
use std::test::Fail;
use tables::{Domains, Kept, Levels, StoreFault, rows};

// What the check answers for the first `len` of the words.
fn answer(
    words: &[u64],
    len: usize,
    n: usize,
    most: usize,
) -> Result<Result<(), StoreFault>, Fail> {
    let Some(words) = words.get(..len) else {
        return Err(Fail::new("too few words"));
    };
    Ok(Copying::check(words, n, most))
}

#[test]
fn sizes_at_their_limits(rt: HostRuntime) -> Result<(), Fail> {
    let vec = vec![in rt.alloc(); 0u64; 69633]?;
    let words = vec.as_slice();
    assert_eq!(rt; answer(words, 69632, 256, 16)?, Ok(()));
    assert_eq!(rt; answer(words, 69631, 256, 16)?, Err(StoreFault::Limits));
    assert_eq!(rt; answer(words, 69633, 257, 15)?, Err(StoreFault::Limits));
    assert_eq!(rt; answer(words, 69633, 0, 16)?, Err(StoreFault::Limits));
    assert_eq!(rt; answer(words, 69633, 1, 17)?, Err(StoreFault::Limits));
    assert_eq!(rt; answer(words, 69633, 1, 0)?, Err(StoreFault::Limits));
    assert_eq!(rt; answer(words, 32, 1, 1)?, Ok(()));
    assert_eq!(rt; answer(words, 31, 1, 1)?, Err(StoreFault::Limits));
    assert_eq!(rt;
        answer(words, 69633, usize::MAX, usize::MAX)?,
        Err(StoreFault::Limits)
    );
    Ok(())
}

#[test]
fn numbers_of_refusals(rt: HostRuntime) {
    assert_eq!(rt; StoreFault::Limits.number(), 5);
    assert_eq!(rt; StoreFault::Full.number(), 12);
    assert_eq!(rt; StoreFault::NoSave.number(), 13);
}

#[test]
fn rows_at_the_ends(rt: HostRuntime) {
    let ends = rows::with(rows::with(rows::none(), -512), 511);
    assert!(rt; rows::has(&ends, -512) && rows::has(&ends, 511));
    assert!(rt; !rows::has(&ends, -513) && !rows::has(&ends, 512));
    assert!(rt; !rows::has(&ends, i32::MIN) && !rows::has(&ends, i32::MAX));
    assert_eq!(rt; rows::size(&ends), 2);
    assert_eq!(rt; rows::with(ends, 512), ends);
    assert_eq!(rt; rows::with(ends, i32::MIN), ends);
    assert_eq!(rt; rows::without(ends, i32::MAX), ends);
    assert_eq!(rt; rows::without(rows::without(ends, 511), -512), rows::none());
    assert_eq!(rt; rows::interval(i32::MIN, i32::MAX), rows::all());
    assert_eq!(rt; rows::interval(-512, 511), rows::all());
    assert_eq!(rt; rows::interval(1, 0), rows::none());
    assert_eq!(rt; rows::interval(i32::MAX, i32::MIN), rows::none());
    assert_eq!(rt; rows::interval(512, i32::MAX), rows::none());
    assert_eq!(rt; rows::interval(511, 511), rows::with(rows::none(), 511));
    assert_eq!(rt; rows::size(&rows::all()), 1024);
}

#[test]
fn rows_across_words(rt: HostRuntime) {
    let row = rows::interval(-449, -448);
    assert_eq!(rt; row[0], 1 << 63);
    assert_eq!(rt; row[1], 1);
    assert_eq!(rt; rows::size(&rows::interval(-500, 500)), 1001);
    assert_eq!(rt; rows::next(&row, -512), Some(-449));
    assert_eq!(rt; rows::next(&row, -448), Some(-448));
    assert_eq!(rt; rows::last(&row, 511), Some(-448));
    assert_eq!(rt; rows::last(&row, -449), Some(-449));
    assert_eq!(rt; rows::last(&row, -450), None);
}

// Next and last of a store whose one variable has only the two end values, and empty words between.
#[test]
fn next_and_last_across_empty_words(rt: HostRuntime) {
    let mut words = [u64::MAX; 32];
    let mut store = Copying::new(&mut words, 1, 1);
    let kept = store.keep(0, rows::with(rows::with(rows::none(), -512), 511));
    assert_eq!(rt;
        kept,
        Kept {
            smaller: true,
            empty: false,
        }
    );
    assert_eq!(rt; store.next(0, i32::MIN), Some(-512));
    assert_eq!(rt; store.next(0, -512), Some(-512));
    assert_eq!(rt; store.next(0, -511), Some(511));
    assert_eq!(rt; store.next(0, 511), Some(511));
    assert_eq!(rt; store.next(0, 512), None);
    assert_eq!(rt; store.next(0, i32::MAX), None);
    assert_eq!(rt; store.last(0, i32::MAX), Some(511));
    assert_eq!(rt; store.last(0, 511), Some(511));
    assert_eq!(rt; store.last(0, 510), Some(-512));
    assert_eq!(rt; store.last(0, -512), Some(-512));
    assert_eq!(rt; store.last(0, -513), None);
    assert_eq!(rt; store.last(0, i32::MIN), None);
    assert_eq!(rt; store.size(0), 2);
}

#[test]
fn no_variable_past_the_last(rt: HostRuntime) {
    let mut words = [u64::MAX; 64];
    let mut store = Copying::new(&mut words, 2, 1);
    assert_eq!(rt; store.variables(), 2);
    assert!(rt; store.has(1, 511) && !store.has(2, 511) && !store.has(usize::MAX, 0));
    assert_eq!(rt; store.size(2), 0);
    assert_eq!(rt; store.next(2, -512), None);
    assert_eq!(rt; store.last(usize::MAX, 511), None);
    assert_eq!(rt;
        store.keep(2, rows::none()),
        Kept {
            smaller: false,
            empty: true,
        }
    );
    assert_eq!(rt; store.size(1), 1024);
    drop(store);
    assert_eq!(rt; words, [u64::MAX; 64]);
}

#[test]
fn an_empty_row_kept(rt: HostRuntime) {
    let mut words = [u64::MAX; 64];
    let mut store = Copying::new(&mut words, 2, 1);
    assert_eq!(rt;
        store.keep(0, rows::all()),
        Kept {
            smaller: false,
            empty: false,
        }
    );
    assert_eq!(rt;
        store.keep(0, rows::none()),
        Kept {
            smaller: true,
            empty: true,
        }
    );
    assert_eq!(rt;
        store.keep(0, rows::none()),
        Kept {
            smaller: false,
            empty: true,
        }
    );
    assert_eq!(rt; store.size(0), 0);
    assert_eq!(rt; store.size(1), 1024);
}

#[test]
fn a_store_made_in_spite_of_the_check(rt: HostRuntime) {
    let mut words = [7; 31];
    let mut store = Copying::new(&mut words, 1, 1);
    assert_eq!(rt; store.variables(), 0);
    assert!(rt; !store.has(0, -512));
    assert_eq!(rt; store.save(), Ok(()));
    assert_eq!(rt; store.save(), Err(StoreFault::Full));
    assert_eq!(rt; store.restore(), Ok(()));
    assert_eq!(rt; store.restore(), Err(StoreFault::NoSave));
    drop(store);
    assert_eq!(rt; words, [7; 31]);
}

// Sixteen saves of the last of 256 variables, each with a value less; the seventeenth is refused, and all come back.
#[test]
fn as_many_saves_as_there_are(rt: HostRuntime) -> Result<(), Fail> {
    let mut vec = vec![in rt.alloc(); u64::MAX; 69640]?;
    let mut store = Copying::new(vec.as_mut_slice(), 256, 16);
    for v in 0..16u8 {
        assert_eq!(rt; store.save(), Ok(()));
        assert!(rt;
            store
                .keep(255, rows::without(rows::all(), i32::from(v)))
                .smaller
        );
    }
    assert_eq!(rt; store.save(), Err(StoreFault::Full));
    assert_eq!(rt; store.size(255), 1008);
    assert_eq!(rt; store.size(254), 1024);
    for v in (0..16u8).rev() {
        assert!(rt; !store.has(255, i32::from(v)));
        assert_eq!(rt; store.restore(), Ok(()));
        assert!(rt; store.has(255, i32::from(v)));
    }
    assert_eq!(rt; store.restore(), Err(StoreFault::NoSave));
    assert_eq!(rt; store.size(255), 1024);
    Ok(())
}

// Seven words past the need of two variables and one save, which no call writes.
#[test]
fn memory_past_the_need(rt: HostRuntime) {
    let mut words = [u64::MAX; 71];
    let mut store = Copying::new(&mut words, 2, 1);
    assert_eq!(rt;
        store.keep(1, rows::none()),
        Kept {
            smaller: true,
            empty: true,
        }
    );
    assert_eq!(rt; store.save(), Ok(()));
    assert_eq!(rt;
        store.keep(0, rows::none()),
        Kept {
            smaller: true,
            empty: true,
        }
    );
    assert_eq!(rt; store.restore(), Ok(()));
    drop(store);
    assert_eq!(rt; words[15], u64::MAX);
    assert_eq!(rt; words[16], 0);
    assert_eq!(rt; words[63], 0);
    assert_eq!(rt; words[64], u64::MAX);
    assert_eq!(rt; words[70], u64::MAX);
}
