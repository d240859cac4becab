// The calls of a session: numbers 9, 13 to 20, 22 and 23.
use crate::support::{Answer, SAMPLE, TOWER, WIRE};
use bristol::read_network;
use network::Network;
use record::Record;
use refusals::numbered;
use session::{Ended, Session};
use sinks::Sink;
use std::process::Abort;
use std::test::Fail;

// A call of a session: data, which a table shows better than closures.
#[derive(Clone, Copy)]
enum Call {
    Compute(u16, u16),
    Release(u16),
    Copy(u16),
}

impl Call {
    fn make<S: Sink>(self, session: &mut Session<'_, S>) -> Answer {
        numbered(match self {
            Call::Compute(i, l) => session.compute(i, l),
            Call::Release(i) => session.release(i),
            Call::Copy(j) => session.copy(j),
        })
    }
}

// How many times a call is made, the call, and what it answers each time.
type Row = (u16, Call, Answer);

// What the end of a session answers, and the gates and the T-count then.
#[derive(Clone, Copy, PartialEq, Eq, Debug)]
struct End {
    answer: Answer,
    gates: u16,
    t_count: u64,
}

// How a session goes: the place of the first row whose call does not give its answer each time, and the end.
#[derive(Clone, Copy, PartialEq, Eq, Debug)]
struct Outcome {
    mistaken: Option<usize>,
    end: End,
}

// A session that makes the calls of all rows and ends: the place of the first row whose call does not give its answer
// each time, and the end. Over any sink, since over a record by its name it gets no proof.
fn run<S: Sink>(network: &Network, sink: S, calls: &[Row]) -> (Option<usize>, Ended<S>) {
    let (mut session, token) = Session::open(network, sink);
    let mistaken = calls.iter().position(|(times, call, answer)| {
        (0..*times).any(|_| call.make(&mut session) != *answer)
    });
    (mistaken, session.end(token))
}

// How a session over a record of this width goes.
fn run_on_record(network: &Network, buffer: &mut [u8], width: u16, calls: &[Row]) -> Outcome {
    let (mistaken, Ended { sink, answer }) = run(network, Record::over(buffer, width), calls);
    Outcome {
        mistaken,
        end: End {
            answer: numbered(answer),
            gates: sink.count(),
            t_count: sink.t_count(),
        },
    }
}

// A session on the network of a text, in a record of this width over so many bytes: its calls, and how it ends.
#[derive(Clone, Copy)]
struct Case<'a> {
    shown: &'a str,
    text: &'a str,
    width: u16,
    size: usize,
    calls: &'a [Row],
    end: End,
}

fn expect(rt: &(impl Abort + AllocGlobal), case: &Case<'_>) -> Result<(), Fail> {
    let heap = rt.alloc();
    let network = read_network(heap, case.text.as_bytes())?;
    let mut buffer = vec![in heap; 0u8; case.size]?;
    let went = run_on_record(&network, &mut buffer, case.width, case.calls);
    let expected = Outcome {
        mistaken: None,
        end: case.end,
    };
    assert_eq!(rt; went, expected, "{}", case.shown);
    Ok(())
}

// In the tower's register of 7 lines, 3 and 4 are outputs, 5 and 6 ancillae; on the sample,
// compute and release take three gates each and copy one.
const CASES: [Case; 14] = [
    Case {
        shown: "a width below inputs and outputs answers 13",
        text: TOWER,
        width: 4,
        size: 108,
        calls: &[
            (1, Call::Compute(2, 5), Err(13)),
            (1, Call::Release(2), Err(13)),
            (1, Call::Copy(2), Err(13)),
        ],
        end: End {
            answer: Err(13),
            gates: 0,
            t_count: 0,
        },
    },
    Case {
        shown: "a width of inputs and outputs fits",
        text: TOWER,
        width: 5,
        size: 108,
        calls: &[
            (1, Call::Compute(2, 5), Err(14)),
            (1, Call::Release(2), Err(14)),
            (1, Call::Copy(2), Err(20)),
        ],
        end: End {
            answer: Err(23),
            gates: 0,
            t_count: 0,
        },
    },
    Case {
        shown: "compute answers its first no",
        text: TOWER,
        width: 7,
        size: 108,
        calls: &[
            (1, Call::Compute(2, 7), Err(14)),
            (1, Call::Compute(1, 7), Err(16)),
            (1, Call::Compute(0, 4), Err(17)),
            (1, Call::Compute(0, 7), Err(17)),
            (1, Call::Compute(0, 6), Ok(())),
            (1, Call::Compute(0, 5), Err(15)),
            (1, Call::Compute(1, 6), Err(17)),
            (1, Call::Compute(1, 5), Ok(())),
            (1, Call::Release(0), Ok(())),
            (1, Call::Compute(1, 7), Err(15)),
        ],
        end: End {
            answer: Err(22),
            gates: 6,
            t_count: 12,
        },
    },
    Case {
        shown: "release answers its first no",
        text: TOWER,
        width: 7,
        size: 108,
        calls: &[
            (1, Call::Release(2), Err(14)),
            (1, Call::Release(1), Err(19)),
            (1, Call::Compute(0, 5), Ok(())),
            (1, Call::Compute(1, 6), Ok(())),
            (1, Call::Release(0), Ok(())),
            (1, Call::Release(0), Err(19)),
            (1, Call::Release(1), Err(16)),
            (1, Call::Compute(0, 5), Ok(())),
            (1, Call::Release(1), Ok(())),
            (1, Call::Release(1), Err(19)),
        ],
        end: End {
            answer: Err(22),
            gates: 10,
            t_count: 20,
        },
    },
    Case {
        shown: "copy answers its first no",
        text: TOWER,
        width: 7,
        size: 108,
        calls: &[
            (1, Call::Copy(2), Err(20)),
            (1, Call::Copy(1), Err(16)),
            (1, Call::Compute(0, 5), Ok(())),
            (1, Call::Copy(1), Ok(())),
            (1, Call::Copy(0), Err(16)),
            (1, Call::Compute(1, 6), Ok(())),
            (1, Call::Copy(0), Ok(())),
            (1, Call::Release(1), Ok(())),
            (1, Call::Release(0), Ok(())),
        ],
        end: End {
            answer: Ok(()),
            gates: 6,
            t_count: 8,
        },
    },
    Case {
        shown: "the 1024th move is the last",
        text: WIRE,
        width: 4,
        size: 16396,
        calls: &[
            (1024, Call::Copy(0), Ok(())),
            (1, Call::Copy(0), Err(18)),
            (1, Call::Copy(1), Err(20)),
        ],
        end: End {
            answer: Err(23),
            gates: 2048,
            t_count: 0,
        },
    },
    Case {
        shown: "a full log refuses compute",
        text: SAMPLE,
        width: 5,
        size: 20012,
        calls: &[
            (1, Call::Compute(0, 4), Ok(())),
            (1022, Call::Copy(0), Ok(())),
            (1, Call::Release(0), Ok(())),
            (1, Call::Compute(0, 3), Err(17)),
            (1, Call::Compute(0, 4), Err(18)),
        ],
        end: End {
            answer: Err(23),
            gates: 2056,
            t_count: 8,
        },
    },
    Case {
        shown: "a full log refuses release",
        text: SAMPLE,
        width: 5,
        size: 20012,
        calls: &[
            (1, Call::Compute(0, 4), Ok(())),
            (1023, Call::Copy(0), Ok(())),
            (1, Call::Release(0), Err(18)),
        ],
        end: End {
            answer: Err(22),
            gates: 2052,
            t_count: 4,
        },
    },
    Case {
        shown: "end while a node is held answers 22",
        text: SAMPLE,
        width: 5,
        size: 200,
        calls: &[(1, Call::Compute(0, 4), Ok(()))],
        end: End {
            answer: Err(22),
            gates: 6,
            t_count: 4,
        },
    },
    Case {
        shown: "end with even copies answers 23",
        text: SAMPLE,
        width: 5,
        size: 200,
        calls: &[
            (1, Call::Compute(0, 4), Ok(())),
            (2, Call::Copy(0), Ok(())),
            (1, Call::Release(0), Ok(())),
        ],
        end: End {
            answer: Err(23),
            gates: 16,
            t_count: 8,
        },
    },
    Case {
        shown: "end with odd copies answers 0",
        text: SAMPLE,
        width: 5,
        size: 200,
        calls: &[
            (1, Call::Compute(0, 4), Ok(())),
            (3, Call::Copy(0), Ok(())),
            (1, Call::Release(0), Ok(())),
        ],
        end: End {
            answer: Ok(()),
            gates: 9,
            t_count: 4,
        },
    },
    Case {
        shown: "end asks for a copy of every output",
        text: TOWER,
        width: 6,
        size: 200,
        calls: &[
            (1, Call::Compute(0, 5), Ok(())),
            (1, Call::Copy(1), Ok(())),
            (1, Call::Release(0), Ok(())),
        ],
        end: End {
            answer: Err(23),
            gates: 6,
            t_count: 8,
        },
    },
    Case {
        shown: "a width of 320 fits; this record has no place",
        text: WIRE,
        width: 320,
        size: 12,
        calls: &[(1, Call::Copy(0), Err(9))],
        end: End {
            answer: Err(23),
            gates: 0,
            t_count: 0,
        },
    },
    Case {
        shown: "a width over 320 answers 13",
        text: WIRE,
        width: 321,
        size: 12,
        calls: &[(1, Call::Copy(0), Err(13))],
        end: End {
            answer: Err(13),
            gates: 0,
            t_count: 0,
        },
    },
];

#[test]
fn calls_answer_their_first_no(rt: HostRuntime) -> Result<(), Fail> {
    for case in &CASES {
        expect(&rt, case)?;
    }
    Ok(())
}

// The bytes of a record, what compute, copy and release answer over it, and the end. The three take three gates, one and
// three; each asks for twice its own and the undoing of what stands.
const PLACES: [(usize, [Answer; 3], End); 6] = [
    (
        59,
        [Err(9), Err(16), Err(19)],
        End {
            answer: Err(23),
            gates: 0,
            t_count: 0,
        },
    ),
    (
        60,
        [Ok(()), Err(9), Err(9)],
        End {
            answer: Err(22),
            gates: 6,
            t_count: 4,
        },
    ),
    (
        75,
        [Ok(()), Err(9), Err(9)],
        End {
            answer: Err(22),
            gates: 6,
            t_count: 4,
        },
    ),
    (
        76,
        [Ok(()), Ok(()), Err(9)],
        End {
            answer: Err(22),
            gates: 8,
            t_count: 4,
        },
    ),
    (
        123,
        [Ok(()), Ok(()), Err(9)],
        End {
            answer: Err(22),
            gates: 8,
            t_count: 4,
        },
    ),
    (
        124,
        [Ok(()), Ok(()), Ok(())],
        End {
            answer: Ok(()),
            gates: 7,
            t_count: 4,
        },
    ),
];

#[test]
fn a_move_and_all_undoing_have_places(rt: HostRuntime) -> Result<(), Fail> {
    for (size, [compute, copy, release], end) in PLACES {
        let case = Case {
            shown: "a move and all undoing have places",
            text: SAMPLE,
            width: 5,
            size,
            calls: &[
                (1, Call::Compute(0, 4), compute),
                (1, Call::Copy(0), copy),
                (1, Call::Release(0), release),
            ],
            end,
        };
        expect(&rt, &case)?;
    }
    Ok(())
}

#[test]
fn refused_calls_change_no_byte(rt: HostRuntime) -> Result<(), Fail> {
    let network = read_network(rt.alloc(), TOWER.as_bytes())?;
    const ACCEPTED: [Row; 3] = [
        (1, Call::Compute(0, 5), Ok(())),
        (1, Call::Copy(1), Ok(())),
        (1, Call::Compute(1, 6), Ok(())),
    ];
    const MIXED: [Row; 10] = [
        (1, Call::Release(0), Err(19)),
        (1, Call::Compute(0, 5), Ok(())),
        (1, Call::Compute(1, 5), Err(17)),
        (1, Call::Copy(1), Ok(())),
        (1, Call::Copy(2), Err(20)),
        (1, Call::Copy(0), Err(16)),
        (1, Call::Compute(1, 6), Ok(())),
        (1, Call::Compute(0, 6), Err(15)),
        (1, Call::Compute(2, 6), Err(14)),
        (1, Call::Copy(1), Err(9)),
    ];
    let mut first = [7; 70];
    let mut second = [7; 70];
    let one = run_on_record(&network, &mut first, 7, &ACCEPTED);
    let other = run_on_record(&network, &mut second, 7, &MIXED);
    let expected = Outcome {
        mistaken: None,
        end: End {
            answer: Err(22),
            gates: 6,
            t_count: 8,
        },
    };
    assert_eq!(rt; (one, other, first), (expected, expected, second));
    Ok(())
}
