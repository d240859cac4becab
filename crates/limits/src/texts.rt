// Bristol Fashion text: numbers 30 to 34, and 4.
use bristol::read_network;
use refusals::numbered;
use std::alloc::Global;
use std::fmt::Write;
use std::process::Abort;
use std::test::Fail;

// Three inputs, wire 3 = XOR 0 1, wire 4 = AND 3 2, output wire 4.
const SAMPLE: &str = "2 5 1 3 1 1 2 1 0 1 3 XOR 2 1 3 2 4 AND";

// Whether a text gives a network, or the number of its refusal.
type Answer = Result<(), u8>;

fn answer(heap: Global, text: &[u8]) -> Answer {
    numbered(read_network(heap, text).map(|_| ()))
}

// Each text, put after the same start, gives the answer.
struct Case {
    shown: &'static str,
    start: &'static str,
    rests: &'static [&'static str],
    answer: Answer,
}

fn expect(rt: &(impl Abort + AllocGlobal), case: &Case) -> Result<(), Fail> {
    let heap = rt.alloc();
    for rest in case.rests {
        let text = format!(in heap; "{} {rest}", case.start)?;
        assert_eq!(rt;
            answer(heap, text.as_bytes()),
            case.answer,
            "{}: {rest}",
            case.shown
        );
    }
    Ok(())
}

// The sample's text, filled up with spaces to so many bytes.
fn padded(heap: Global, size: usize) -> Result<Answer, Fail> {
    let mut text = Vec::from_slice(heap, SAMPLE.as_bytes())?;
    text.resize(size, b' ')?;
    Ok(answer(heap, &text))
}

const CASES: [Case; 20] = [
    Case {
        shown: "the header is numbers",
        start: "",
        rests: &[
            "",
            "2",
            "2 5",
            "2 5 1",
            "2 5 1 3",
            "2 5 1 3 1",
            "2 5 2 3 1 1",
            "2 5 1 3 2 1",
            "x 5 1 3 1 1",
            "2 x 1 3 1 1",
            "2 5 x 3 1 1",
            "2 5 1 x 1 1",
            "2 5 1 3 x 1",
            "2 5 1 3 1 x",
            "-0 1 1 1 1 1",
            "0\x0b1 1 1 1 1",
        ],
        answer: Err(31),
    },
    Case {
        shown: "inputs and outputs are from 1 to 64",
        start: "",
        rests: &[
            "0 1 1 1 1 1",
            "0 64 1 64 1 1",
            "0 64 1 64 1 64",
            "1 65 1 64 1 64 1 1 0 64 INV",
            "0 64 3 1 0 63 2 63 1",
        ],
        answer: Ok(()),
    },
    Case {
        shown: "inputs and outputs are from 1 to 64",
        start: "",
        rests: &[
            "0 0 1 0 1 1",
            "0 0 0 1 1",
            "0 65 1 65 1 1",
            "0 65 2 1 64 1 1",
            "0 1 1 1 1 0",
            "0 1 1 1 0",
            "1 65 1 64 1 65 1 1 0 64 INV",
            "1 65 1 64 2 1 64 1 1 0 64 INV",
        ],
        answer: Err(32),
    },
    Case {
        shown: "wires are inputs and gates and not under outputs",
        start: "",
        rests: &[
            "1 2 1 1 1 1 1 1 0 1 INV",
            "1 2 1 1 1 2 1 1 0 1 INV",
            "0 2 1 2 1 2",
        ],
        answer: Ok(()),
    },
    Case {
        shown: "wires are inputs and gates and not under outputs",
        start: "",
        rests: &[
            "1 1 1 1 1 1 1 1 0 1 INV",
            "1 3 1 1 1 1 1 1 0 1 INV",
            "1 2 1 1 1 3 1 1 0 1 INV",
            "0 2 1 2 1 3",
        ],
        answer: Err(32),
    },
    Case {
        shown: "numbers are at most 65535",
        start: "1 2 1 1 1 1",
        rests: &["1 1 65535 1 INV", "1 1 0 65535 INV"],
        answer: Err(34),
    },
    Case {
        shown: "numbers are at most 65535",
        start: "1 2 1 1 1 1",
        rests: &["1 1 65536 1 INV", "1 1 0 65536 INV", "65536 1 0 1 INV"],
        answer: Err(31),
    },
    Case {
        shown: "numbers are at most 65535",
        start: "",
        rests: &["65535 1 1 1 1 1", "0 1 1 65535 1 1"],
        answer: Err(32),
    },
    Case {
        shown: "numbers are at most 65535",
        start: "",
        rests: &["65536 1 1 1 1 1", "0 1 1 65536 1 1"],
        answer: Err(31),
    },
    Case {
        shown: "gates have counts 2 1 or 1 1",
        start: "1 3 1 2 1 1",
        rests: &["2 1 0 1 2 XOR", "2 1 0 1 2 AND", "1 1 0 2 INV"],
        answer: Ok(()),
    },
    Case {
        shown: "gates have counts 2 1 or 1 1",
        start: "1 3 1 2 1 1",
        rests: &[
            "1 2",
            "3 1",
            "0 1",
            "1 0",
            "2 2",
            "2 0",
            "1 2 0 2 INV",
            "3 1 0 1 0 2 XOR",
        ],
        answer: Err(33),
    },
    Case {
        shown: "gates have counts 2 1 or 1 1",
        start: "1 3 1 2 1 1",
        rests: &["", "2", "x 1 0 1 2 XOR", "2 x 0 1 2 XOR"],
        answer: Err(31),
    },
    Case {
        shown: "operations fit their counts",
        start: "1 3 1 2 1 1",
        rests: &[
            "2 1 0 1 2 OR",
            "2 1 0 1 2 xor",
            "2 1 0 1 2 INV",
            "1 1 0 2 XOR",
            "1 1 0 2 AND",
            "1 1 9 9 EQ",
        ],
        answer: Err(33),
    },
    Case {
        shown: "operations fit their counts",
        start: "1 3 1 2 1 1",
        rests: &["2 1 0 1 2", "2 1 0 1", "2 1 0 1 XOR", "1 1 0 2", "1 1 INV"],
        answer: Err(31),
    },
    Case {
        shown: "wires are given once before they are read",
        start: "2 4 1 2 1 1",
        rests: &["2 1 0 1 2 XOR 2 1 2 0 3 AND", "2 1 0 1 3 XOR 2 1 0 3 2 AND"],
        answer: Ok(()),
    },
    Case {
        shown: "wires are given once before they are read",
        start: "2 4 1 2 1 1",
        rests: &[
            "2 1 2 0 2 XOR 2 1 0 1 3 AND",
            "2 1 0 2 2 XOR 2 1 0 1 3 AND",
            "1 1 3 2 INV 2 1 0 1 3 AND",
            "2 1 0 4 2 XOR 2 1 0 1 3 AND",
            "2 1 0 1 1 XOR 2 1 0 1 3 AND",
            "2 1 0 1 4 XOR 2 1 0 1 3 AND",
            "2 1 0 1 2 XOR 2 1 0 1 2 AND",
        ],
        answer: Err(34),
    },
    Case {
        shown: "no token is left",
        start: SAMPLE,
        rests: &["", "\t\r\n "],
        answer: Ok(()),
    },
    Case {
        shown: "no token is left",
        start: SAMPLE,
        rests: &["0", "XOR", "1 1 0 5 INV"],
        answer: Err(31),
    },
    Case {
        shown: "no token is left",
        start: "0 1 1 1 1 1",
        rests: &["0"],
        answer: Err(31),
    },
    Case {
        shown: "tokens are parted by space tab cr or lf",
        start: "",
        rests: &[
            "2 5\r\n1 3\r\n1 1\r\n\r\n2 1 0 1 3 XOR\r\n2 1 3 2 4 AND\r\n",
            "2\t5\t1\t3\t1\t1\t2\t1\t0\t1\t3\tXOR\t2\t1\t3\t2\t4\tAND",
            "\n\n2 5 1 3 1 1 002 01 0000000 1 3 XOR 2 1 3 2 4 AND",
        ],
        answer: Ok(()),
    },
];

#[test]
fn texts_answer_their_first_no(rt: HostRuntime) -> Result<(), Fail> {
    for case in &CASES {
        expect(&rt, case)?;
    }
    Ok(())
}

#[test]
fn texts_have_at_most_65536_bytes(rt: HostRuntime) -> Result<(), Fail> {
    let heap = rt.alloc();
    assert_eq!(rt;
        [padded(heap, 65536)?, padded(heap, 65537)?],
        [Ok(()), Err(30)]
    );
    Ok(())
}

#[test]
fn a_long_text_answers_30_before_31(rt: HostRuntime) -> Result<(), Fail> {
    let heap = rt.alloc();
    let text = vec![in heap; b'x'; 65537]?;
    assert_eq!(rt; answer(heap, &text), Err(30));
    Ok(())
}

// A text of so many gates, each reading the same of so many inputs.
fn repeated(
    heap: Global,
    inputs: u16,
    gates: u16,
    reads: &str,
    operation: &str,
) -> Result<Answer, Fail> {
    let wires = gates.saturating_add(inputs);
    let mut text = format!(in heap; "{gates} {wires} 1 {inputs} 1 1")?;
    for wire in inputs..wires {
        write!(text, " {reads} {wire} {operation}")?;
    }
    Ok(answer(heap, text.as_bytes()))
}

#[test]
fn wires_are_at_most_1024_and_nodes_192(rt: HostRuntime) -> Result<(), Fail> {
    let heap = rt.alloc();
    let wires = repeated(heap, 1, 1023, "1 1 0", "INV")?;
    let more_wires = repeated(heap, 1, 1024, "1 1 0", "INV")?;
    let nodes = repeated(heap, 2, 192, "2 1 0 1", "AND")?;
    let more_nodes = repeated(heap, 2, 193, "2 1 0 1", "AND")?;
    assert_eq!(rt;
        [wires, more_wires, nodes, more_nodes],
        [Ok(()), Err(32), Ok(()), Err(4)]
    );
    Ok(())
}

// A text that ends inside an operation has a token there, which fits no gate; any other cut leaves too few.
fn cut_number(text: &[u8]) -> u8 {
    match text {
        [.., b'X'] | [.., b'X', b'O'] | [.., b'A'] | [.., b'A', b'N'] => 33,
        _ => 31,
    }
}

#[test]
fn a_sample_that_is_cut_is_refused(rt: HostRuntime) {
    let heap = rt.alloc();
    let text = SAMPLE.as_bytes();
    for end in 0..text.len() {
        let part = &text[0..end];
        assert_eq!(rt; answer(heap, part), Err(cut_number(part)), "{end}");
    }
}

// The outputs are the last wires.
#[test]
fn outputs_may_be_inputs(rt: HostRuntime) -> Result<(), Fail> {
    let network = read_network(rt.alloc(), b"0 3 1 3 1 2")?;
    let Some(form) = network.output(0) else {
        return Err(Fail::new("no output"));
    };
    assert_eq!(rt;
        (
            network.inputs(),
            network.outputs(),
            network.nodes(),
            form.elements(),
        ),
        (3, 2, 0, [1].as_slice())
    );
    Ok(())
}
