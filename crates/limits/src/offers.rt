// Offers to a record: numbers 7 to 9.
use circuit::Gate;
use record::Record;
use refusals::numbered;
use sinks::Sink;
use std::process::Abort;
use std::test::Fail;

// The gates that a record holds, its T-count and its free places.
#[derive(Clone, Copy, PartialEq, Eq, Debug)]
struct Counts {
    gates: u16,
    t_count: u64,
    free: u64,
}

impl Counts {
    fn of(record: &Record<'_>) -> Counts {
        Counts {
            gates: record.count(),
            t_count: record.t_count(),
            free: record.free(),
        }
    }
}

// Whether an offer was taken, or the number of its refusal.
type Answer = Result<(), u8>;

// Each offer to a record of so many lines gives its answer. These are the counts afterwards.
struct Case {
    shown: &'static str,
    width: u16,
    offers: &'static [(Gate, Answer)],
    counts: Counts,
}

fn expect(rt: &impl Abort, buffer: &mut [u8], case: &Case) -> Result<(), Fail> {
    let mut record = Record::over(buffer, case.width);
    for (gate, answer) in case.offers {
        assert_eq!(rt; numbered(record.offer(*gate)), *answer, "{}", case.shown);
    }
    assert_eq!(rt; Counts::of(&record), case.counts, "{}", case.shown);
    Ok(())
}

// Offers to a record of 5 lines and 10 places.
const CASES: [Case; 3] = [
    Case {
        shown: "lines below the width are taken",
        width: 5,
        offers: &[
            (Gate::Not { t: 4 }, Ok(())),
            (Gate::Cnot { a: 4, t: 0 }, Ok(())),
            (Gate::Cnot { a: 0, t: 4 }, Ok(())),
            (Gate::And { a: 4, b: 0, t: 1 }, Ok(())),
            (Gate::And { a: 0, b: 4, t: 1 }, Ok(())),
            (Gate::And { a: 0, b: 1, t: 4 }, Ok(())),
            (Gate::Unand { a: 4, b: 0, t: 1 }, Ok(())),
            (Gate::Unand { a: 0, b: 4, t: 1 }, Ok(())),
            (Gate::Unand { a: 0, b: 1, t: 4 }, Ok(())),
        ],
        counts: Counts {
            gates: 9,
            t_count: 12,
            free: 1,
        },
    },
    Case {
        shown: "a line at the width answers 7",
        width: 5,
        offers: &[
            (Gate::Not { t: 5 }, Err(7)),
            (Gate::Cnot { a: 5, t: 0 }, Err(7)),
            (Gate::Cnot { a: 0, t: 5 }, Err(7)),
            (Gate::And { a: 5, b: 0, t: 1 }, Err(7)),
            (Gate::And { a: 0, b: 5, t: 1 }, Err(7)),
            (Gate::And { a: 0, b: 1, t: 5 }, Err(7)),
            (Gate::Unand { a: 5, b: 0, t: 1 }, Err(7)),
            (Gate::Unand { a: 0, b: 5, t: 1 }, Err(7)),
            (Gate::Unand { a: 0, b: 1, t: 5 }, Err(7)),
        ],
        counts: Counts {
            gates: 0,
            t_count: 0,
            free: 10,
        },
    },
    Case {
        shown: "equal lines answer 8",
        width: 5,
        offers: &[
            (Gate::Cnot { a: 4, t: 4 }, Err(8)),
            (Gate::And { a: 1, b: 1, t: 0 }, Err(8)),
            (Gate::And { a: 1, b: 0, t: 1 }, Err(8)),
            (Gate::And { a: 0, b: 1, t: 1 }, Err(8)),
            (Gate::Unand { a: 1, b: 1, t: 0 }, Err(8)),
            (Gate::Unand { a: 1, b: 0, t: 1 }, Err(8)),
            (Gate::Unand { a: 0, b: 1, t: 1 }, Err(8)),
        ],
        counts: Counts {
            gates: 0,
            t_count: 0,
            free: 10,
        },
    },
];

#[test]
fn offers_answer_their_first_no(rt: HostRuntime) -> Result<(), Fail> {
    for case in &CASES {
        expect(&rt, &mut [0; 92], case)?;
    }
    Ok(())
}

#[test]
fn the_last_place_is_taken_and_no_more(rt: HostRuntime) -> Result<(), Fail> {
    const CASE: Case = Case {
        shown: "the last place is taken and no more",
        width: 2,
        offers: &[
            (Gate::Cnot { a: 1, t: 0 }, Ok(())),
            (Gate::Cnot { a: 1, t: 0 }, Ok(())),
            (Gate::Cnot { a: 1, t: 0 }, Err(9)),
        ],
        counts: Counts {
            gates: 2,
            t_count: 0,
            free: 0,
        },
    };
    expect(&rt, &mut [0; 28], &CASE)
}

#[test]
fn refused_offers_change_no_byte(rt: HostRuntime) -> Result<(), Fail> {
    const CASE: Case = Case {
        shown: "refused offers change no byte",
        width: 5,
        offers: &[
            (Gate::And { a: 0, b: 1, t: 4 }, Ok(())),
            (Gate::Cnot { a: 5, t: 5 }, Err(7)),
            (Gate::Cnot { a: 4, t: 4 }, Err(8)),
            (Gate::Cnot { a: 4, t: 3 }, Err(9)),
        ],
        counts: Counts {
            gates: 1,
            t_count: 4,
            free: 0,
        },
    };
    let mut buffer = [7; 20];
    expect(&rt, &mut buffer, &CASE)?;
    assert_eq!(rt;
        buffer,
        [2, 0, 0, 0, 1, 0, 4, 0, 7, 7, 7, 7, 7, 7, 7, 7, 7, 7, 7, 7]
    );
    Ok(())
}

#[test]
fn a_closed_record_answers_9(rt: HostRuntime) {
    let mut buffer = [0; 36];
    let mut record = Record::over(&mut buffer, 5);
    let before = record.offer(Gate::And { a: 0, b: 1, t: 2 });
    let free = record.free();
    record.close();
    let after = record.offer(Gate::Not { t: 0 });
    assert_eq!(rt; (before, free, numbered(after)), (Ok(()), 2, Err(9)));
    assert_eq!(rt;
        Counts::of(&record),
        Counts {
            gates: 1,
            t_count: 4,
            free: 0,
        }
    );
}
