//! Contents under numbers: that calls succeed.
use scm_frontier::{ContentsTable, Situation};
use std::alloc::Global;
use std::process::Abort;

/// The contents of two cells, those of the second case open and as great as they can be.
const CONTENTS: [[Option<u64>; 2]; 2] = [[Some(0), Some(0)], [None, Some(u64::MAX)]];

fn start(rt: &impl Abort, alloc: Global, number: usize) -> Situation {
    assert!(rt; number < 2);
    Situation::start(alloc, &CONTENTS[number], 1).expect(rt, "memory")
}

/// Keeps the contents of both cases, each under its number, and each once.
fn table_of_both(rt: &impl Abort, alloc: Global) -> ContentsTable {
    let mut table = ContentsTable::new(alloc);
    for number in [0, 0, 1, 1] {
        let situation = start(rt, alloc, number);
        assert!(rt; table.len() < 100);
        let kept = table.keep(&situation).expect(rt, "memory");
        assert!(rt; kept as usize == number);
    }
    assert!(rt; table.len() == 2);
    table
}

/// The situation of these counts and of the second contents.
fn assert_made(rt: &impl Abort, table: &ContentsTable) {
    assert!(rt; table.len() == 2);
    let made = table.make(&[3, 1], 1).expect(rt, "memory");
    assert!(rt; made.procs() == 2 && made.cells() == 2);
    assert!(rt; made.count(0) == 3 && [made.value(0), made.value(1)] == CONTENTS[1]);
}

#[test]
fn contents_are_kept_once(rt: HostRuntime) {
    let table = table_of_both(&rt, rt.alloc());
    assert_made(&rt, &table);
}

#[test]
fn the_last_contents_take_the_number_that_is_free(rt: HostRuntime) {
    let mut table = table_of_both(&rt, rt.alloc());
    assert!(rt; table.len() == 2);
    table.discard(0);
    let numbers = [0, 1].map(|number| table.number_of(&start(&rt, rt.alloc(), number)));
    assert!(rt; table.len() == 1 && numbers == [None, Some(0)]);
}
