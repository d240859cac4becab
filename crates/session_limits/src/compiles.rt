// Whole networks compiled: what compile answers, and the gates in order.
use crate::support::{Answer, SAMPLE};
use bristol::read_network;
use circuit::Gate;
use record::Record;
use refusals::numbered;
use session::{Ended, compile};
use sinks::Sink;
use std::process::Abort;
use std::test::Fail;

// Compiled on so many lines and bytes, the network of a text gives the answer, with this T-count and these gates.
struct Case {
    shown: &'static str,
    text: &'static str,
    width: u16,
    size: usize,
    answer: Answer,
    t_count: u64,
    gates: &'static [Gate],
}

fn expect(rt: &(impl Abort + AllocGlobal), case: &Case) -> Result<(), Fail> {
    let heap = rt.alloc();
    let network = read_network(heap, case.text.as_bytes())?;
    let mut buffer = vec![in heap; 0u8; case.size]?;
    let record = Record::over(&mut buffer, case.width);
    let Ended { sink, answer } = compile(&network, record);
    assert_eq!(rt;
        (numbered(answer), sink.t_count()),
        (case.answer, case.t_count),
        "{}",
        case.shown
    );
    let gates = (0..sink.count()).map(|k| sink.gate(k));
    assert!(rt;
        gates.eq(case.gates.iter().map(|gate| Some(*gate))),
        "{}",
        case.shown
    );
    Ok(())
}

const CASES: [Case; 10] = [
    Case {
        shown: "sample in 5 lines and 124 bytes",
        text: SAMPLE,
        width: 5,
        size: 124,
        answer: Ok(()),
        t_count: 4,
        gates: &[
            Gate::Cnot { a: 1, t: 0 },
            Gate::And { a: 0, b: 2, t: 4 },
            Gate::Cnot { a: 1, t: 0 },
            Gate::Cnot { a: 4, t: 3 },
            Gate::Cnot { a: 1, t: 0 },
            Gate::Unand { a: 0, b: 2, t: 4 },
            Gate::Cnot { a: 1, t: 0 },
        ],
    },
    Case {
        shown: "sample in 123 bytes is wound back",
        text: SAMPLE,
        width: 5,
        size: 123,
        answer: Err(9),
        t_count: 4,
        gates: &[
            Gate::Cnot { a: 1, t: 0 },
            Gate::And { a: 0, b: 2, t: 4 },
            Gate::Cnot { a: 1, t: 0 },
            Gate::Cnot { a: 4, t: 3 },
            Gate::Cnot { a: 4, t: 3 },
            Gate::Cnot { a: 1, t: 0 },
            Gate::Unand { a: 0, b: 2, t: 4 },
            Gate::Cnot { a: 1, t: 0 },
        ],
    },
    Case {
        shown: "sample without room has no gate",
        text: SAMPLE,
        width: 4,
        size: 124,
        answer: Err(17),
        t_count: 0,
        gates: &[],
    },
    Case {
        shown: "sample without room has no gate",
        text: SAMPLE,
        width: 3,
        size: 124,
        answer: Err(13),
        t_count: 0,
        gates: &[],
    },
    Case {
        shown: "sample without room has no gate",
        text: SAMPLE,
        width: 5,
        size: 59,
        answer: Err(9),
        t_count: 0,
        gates: &[],
    },
    Case {
        shown: "and of x0 and x0 xor x1",
        text: "2 5 1 3 1 1 2 1 0 1 3 XOR 2 1 0 3 4 AND",
        width: 5,
        size: 124,
        answer: Ok(()),
        t_count: 4,
        gates: &[
            Gate::Cnot { a: 0, t: 1 },
            Gate::And { a: 0, b: 1, t: 4 },
            Gate::Cnot { a: 0, t: 1 },
            Gate::Cnot { a: 4, t: 3 },
            Gate::Cnot { a: 0, t: 1 },
            Gate::Unand { a: 0, b: 1, t: 4 },
            Gate::Cnot { a: 0, t: 1 },
        ],
    },
    Case {
        shown: "and of inverted x0 and x1",
        text: "2 5 1 3 1 1 1 1 0 3 INV 2 1 3 1 4 AND",
        width: 5,
        size: 124,
        answer: Ok(()),
        t_count: 4,
        gates: &[
            Gate::Not { t: 0 },
            Gate::And { a: 0, b: 1, t: 4 },
            Gate::Not { t: 0 },
            Gate::Cnot { a: 4, t: 3 },
            Gate::Not { t: 0 },
            Gate::Unand { a: 0, b: 1, t: 4 },
            Gate::Not { t: 0 },
        ],
    },
    Case {
        shown: "the larger of nested sets is formed first",
        text: "3 6 1 3 1 1 2 1 0 1 3 XOR 2 1 3 2 4 XOR 2 1 3 4 5 AND",
        width: 5,
        size: 252,
        answer: Ok(()),
        t_count: 4,
        gates: &[
            Gate::Cnot { a: 0, t: 2 },
            Gate::Cnot { a: 1, t: 2 },
            Gate::Cnot { a: 1, t: 0 },
            Gate::And { a: 0, b: 2, t: 4 },
            Gate::Cnot { a: 1, t: 0 },
            Gate::Cnot { a: 1, t: 2 },
            Gate::Cnot { a: 0, t: 2 },
            Gate::Cnot { a: 4, t: 3 },
            Gate::Cnot { a: 0, t: 2 },
            Gate::Cnot { a: 1, t: 2 },
            Gate::Cnot { a: 1, t: 0 },
            Gate::Unand { a: 0, b: 2, t: 4 },
            Gate::Cnot { a: 1, t: 0 },
            Gate::Cnot { a: 1, t: 2 },
            Gate::Cnot { a: 0, t: 2 },
        ],
    },
    Case {
        shown: "the larger set may be the first operand",
        text: "3 6 1 3 1 1 2 1 0 1 3 XOR 2 1 3 2 4 XOR 2 1 4 3 5 AND",
        width: 5,
        size: 252,
        answer: Ok(()),
        t_count: 4,
        gates: &[
            Gate::Cnot { a: 0, t: 2 },
            Gate::Cnot { a: 1, t: 2 },
            Gate::Cnot { a: 1, t: 0 },
            Gate::And { a: 2, b: 0, t: 4 },
            Gate::Cnot { a: 1, t: 0 },
            Gate::Cnot { a: 1, t: 2 },
            Gate::Cnot { a: 0, t: 2 },
            Gate::Cnot { a: 4, t: 3 },
            Gate::Cnot { a: 0, t: 2 },
            Gate::Cnot { a: 1, t: 2 },
            Gate::Cnot { a: 1, t: 0 },
            Gate::Unand { a: 2, b: 0, t: 4 },
            Gate::Cnot { a: 1, t: 0 },
            Gate::Cnot { a: 1, t: 2 },
            Gate::Cnot { a: 0, t: 2 },
        ],
    },
    Case {
        shown: "a copied constant takes a not",
        text: "2 5 1 3 1 1 2 1 1 0 3 XOR 1 1 3 4 INV",
        width: 4,
        size: 124,
        answer: Ok(()),
        t_count: 0,
        gates: &[
            Gate::Cnot { a: 0, t: 3 },
            Gate::Cnot { a: 1, t: 3 },
            Gate::Not { t: 3 },
        ],
    },
];

#[test]
fn networks_compile_to_their_gates(rt: HostRuntime) -> Result<(), Fail> {
    for case in &CASES {
        expect(&rt, case)?;
    }
    Ok(())
}
