// Drafts: numbers 1 to 6, and the rules of AND.
use network::{Draft, Gate, Network};
use refusals::{DraftRefusal, numbered};
use std::alloc::Global;
use std::process::Abort;
use std::test::Fail;

// A call that changes a draft: data, which a table shows better than closures. A gate is added by the call of its own
// name; crate network_values adds by `add`.
#[derive(Clone, Copy)]
enum DraftCall {
    Add(Gate),
    Output(u16),
}

impl DraftCall {
    fn make(self, draft: &mut Draft) -> Result<u16, DraftRefusal> {
        match self {
            DraftCall::Add(Gate::Xor(a, b)) => draft.xor(a, b),
            DraftCall::Add(Gate::And(a, b)) => draft.and(a, b),
            DraftCall::Add(Gate::Inv(a)) => draft.inv(a),
            DraftCall::Output(wire) => draft.output(wire),
        }
    }
}

// Whether a call was accepted, or the number of its refusal.
type Answer = Result<(), u8>;

fn answered<T: Drop>(answer: Result<T, DraftRefusal>) -> Answer {
    numbered(answer.map(|_| ()))
}

// How many times a call is made, the call, and what it answers each time.
type Row = (u16, DraftCall, Answer);

// On a draft of so many inputs the calls of all rows are made. Then there are so many wires, nodes and outputs.
struct Case {
    shown: &'static str,
    inputs: u16,
    calls: &'static [Row],
    wires: u16,
    nodes: u16,
    outputs: u16,
}

fn expect(rt: &(impl Abort + AllocGlobal), case: &Case) -> Result<(), Fail> {
    let mut draft = Draft::new(rt.alloc(), case.inputs)?;
    for (times, call, answer) in case.calls {
        for _ in 0..*times {
            assert_eq!(rt; answered(call.make(&mut draft)), *answer, "{}", case.shown);
        }
    }
    assert_eq!(rt;
        (draft.wires(), draft.nodes(), draft.outputs()),
        (case.wires, case.nodes, case.outputs),
        "{}",
        case.shown
    );
    Ok(())
}

const CASES: [Case; 6] = [
    Case {
        shown: "the 1024th wire is the last",
        inputs: 1,
        calls: &[
            (1022, DraftCall::Add(Gate::Inv(0)), Ok(())),
            (1, DraftCall::Add(Gate::Xor(1022, 0)), Ok(())),
            (1, DraftCall::Add(Gate::Xor(0, 0)), Err(2)),
            (1, DraftCall::Add(Gate::And(0, 0)), Err(2)),
            (1, DraftCall::Add(Gate::Inv(0)), Err(2)),
        ],
        wires: 1024,
        nodes: 0,
        outputs: 0,
    },
    Case {
        shown: "the 1024th wire may be an and",
        inputs: 1,
        calls: &[
            (1022, DraftCall::Add(Gate::Inv(0)), Ok(())),
            (1, DraftCall::Add(Gate::And(0, 0)), Ok(())),
            (1, DraftCall::Add(Gate::And(0, 0)), Err(2)),
        ],
        wires: 1024,
        nodes: 0,
        outputs: 0,
    },
    Case {
        shown: "a full draft answers 2 before 3 and 4",
        inputs: 2,
        calls: &[
            (192, DraftCall::Add(Gate::And(0, 1)), Ok(())),
            (830, DraftCall::Add(Gate::Inv(0)), Ok(())),
            (1, DraftCall::Add(Gate::Inv(1024)), Err(2)),
            (1, DraftCall::Add(Gate::And(0, 1)), Err(2)),
        ],
        wires: 1024,
        nodes: 192,
        outputs: 0,
    },
    Case {
        shown: "gates read wires that exist",
        inputs: 3,
        calls: &[
            (1, DraftCall::Add(Gate::Xor(3, 0)), Err(3)),
            (1, DraftCall::Add(Gate::Xor(0, 3)), Err(3)),
            (1, DraftCall::Add(Gate::And(3, 0)), Err(3)),
            (1, DraftCall::Add(Gate::And(0, 3)), Err(3)),
            (1, DraftCall::Add(Gate::Inv(3)), Err(3)),
            (1, DraftCall::Add(Gate::Xor(2, 0)), Ok(())),
            (1, DraftCall::Add(Gate::Xor(0, 3)), Ok(())),
            (1, DraftCall::Add(Gate::And(4, 0)), Ok(())),
            (1, DraftCall::Add(Gate::And(0, 5)), Ok(())),
            (1, DraftCall::Add(Gate::Inv(6)), Ok(())),
        ],
        wires: 8,
        nodes: 2,
        outputs: 0,
    },
    Case {
        shown: "the 192nd node is the last",
        inputs: 2,
        calls: &[
            (192, DraftCall::Add(Gate::And(0, 1)), Ok(())),
            (1, DraftCall::Add(Gate::And(0, 1)), Err(4)),
            (1, DraftCall::Add(Gate::And(0, 194)), Err(3)),
            (1, DraftCall::Add(Gate::And(0, 0)), Ok(())),
        ],
        wires: 195,
        nodes: 192,
        outputs: 0,
    },
    Case {
        shown: "outputs are wires that exist and at most 64",
        inputs: 2,
        calls: &[
            (1, DraftCall::Output(2), Err(3)),
            (64, DraftCall::Output(1), Ok(())),
            (1, DraftCall::Output(1), Err(5)),
            (1, DraftCall::Output(2), Err(3)),
        ],
        wires: 2,
        nodes: 0,
        outputs: 64,
    },
];

#[test]
fn calls_answer_their_first_no(rt: HostRuntime) -> Result<(), Fail> {
    for case in &CASES {
        expect(&rt, case)?;
    }
    Ok(())
}

#[test]
fn inputs_are_from_1_to_64(rt: HostRuntime) {
    for (n, answer) in [(0, Err(1)), (1, Ok(())), (64, Ok(())), (65, Err(1))] {
        assert_eq!(rt; answered(Draft::new(rt.alloc(), n)), answer, "{n} inputs");
    }
}

#[test]
fn sealing_wants_an_output(rt: HostRuntime) -> Result<(), Fail> {
    let draft = Draft::new(rt.alloc(), 3)?;
    let none = answered(draft.sealable());
    let Err(mut draft) = draft.seal() else {
        return Err(Fail::new("sealed with no output"));
    };
    let marked = answered(draft.output(2));
    let one = answered(draft.sealable());
    let sealed = draft.seal().is_ok();
    assert_eq!(rt; (none, marked, one, sealed), (Err(6), Ok(()), Ok(()), true));
    Ok(())
}

// The network that these calls make of a draft of three inputs.
fn network(heap: Global, calls: &[DraftCall]) -> Result<Network, DraftRefusal> {
    let mut draft = Draft::new(heap, 3)?;
    for call in calls {
        call.make(&mut draft)?;
    }
    draft.seal().map_err(|_| DraftRefusal::NoOutput)
}

// These calls of a draft of three inputs leave so many nodes, and output 0 has a form of these elements and this
// constant.
struct FormCase {
    shown: &'static str,
    calls: &'static [DraftCall],
    nodes: u16,
    elements: &'static [u16],
    constant: bool,
}

fn expect_form(rt: &(impl Abort + AllocGlobal), case: &FormCase) -> Result<(), Fail> {
    let network = network(rt.alloc(), case.calls)?;
    let Some(form) = network.output(0) else {
        return Err(Fail::new("no output"));
    };
    assert_eq!(rt;
        (network.nodes(), form.elements(), form.constant()),
        (case.nodes, case.elements, case.constant),
        "{}",
        case.shown
    );
    Ok(())
}

const FORMS: [FormCase; 5] = [
    FormCase {
        shown: "and of a wire and itself is the wire",
        calls: &[
            DraftCall::Add(Gate::Xor(0, 1)),
            DraftCall::Add(Gate::Inv(3)),
            DraftCall::Add(Gate::And(4, 4)),
            DraftCall::Output(5),
        ],
        nodes: 0,
        elements: &[0, 1],
        constant: true,
    },
    FormCase {
        shown: "and of a wire and its inverse is zero",
        calls: &[
            DraftCall::Add(Gate::Xor(0, 1)),
            DraftCall::Add(Gate::Inv(3)),
            DraftCall::Add(Gate::And(3, 4)),
            DraftCall::Output(5),
        ],
        nodes: 0,
        elements: &[],
        constant: false,
    },
    FormCase {
        shown: "and with constant 0 is zero",
        calls: &[
            DraftCall::Add(Gate::Xor(0, 0)),
            DraftCall::Add(Gate::And(3, 1)),
            DraftCall::Add(Gate::And(2, 4)),
            DraftCall::Output(5),
        ],
        nodes: 0,
        elements: &[],
        constant: false,
    },
    FormCase {
        shown: "and with constant 1 is the other wire",
        calls: &[
            DraftCall::Add(Gate::Xor(0, 0)),
            DraftCall::Add(Gate::Inv(3)),
            DraftCall::Add(Gate::And(4, 1)),
            DraftCall::Add(Gate::And(5, 4)),
            DraftCall::Output(6),
        ],
        nodes: 0,
        elements: &[1],
        constant: false,
    },
    FormCase {
        shown: "and of other wires is a new node each time",
        calls: &[
            DraftCall::Add(Gate::And(0, 1)),
            DraftCall::Add(Gate::And(0, 1)),
            DraftCall::Output(4),
        ],
        nodes: 2,
        elements: &[4],
        constant: false,
    },
];

#[test]
fn and_takes_the_first_rule_that_fits(rt: HostRuntime) -> Result<(), Fail> {
    for case in &FORMS {
        expect_form(&rt, case)?;
    }
    Ok(())
}
