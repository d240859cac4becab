// Making records: numbers 10 and 11. The bytes of gates and of the trailer.
use circuit::Gate;
use record::Record;
use refusals::{MakeRefusal, numbered};
use sinks::Sink;
use std::test::Fail;

// What is shown, a width and a size, and the places or the refusal. The width is asked for before the size.
const CASES: [(&str, u16, usize, Result<u64, u8>); 13] = [
    ("widths are from 1 to 320", 0, 20, Err(10)),
    ("widths are from 1 to 320", 1, 20, Ok(1)),
    ("widths are from 1 to 320", 320, 20, Ok(1)),
    ("widths are from 1 to 320", 321, 20, Err(10)),
    ("widths are from 1 to 320", 321, 11, Err(10)),
    ("buffers have from 12 to 524292 bytes", 5, 11, Err(11)),
    ("buffers have from 12 to 524292 bytes", 5, 12, Ok(0)),
    ("buffers have from 12 to 524292 bytes", 5, 524292, Ok(65535)),
    ("buffers have from 12 to 524292 bytes", 5, 524293, Err(11)),
    ("a place takes eight bytes", 5, 19, Ok(0)),
    ("a place takes eight bytes", 5, 20, Ok(1)),
    ("a place takes eight bytes", 5, 27, Ok(1)),
    ("a place takes eight bytes", 5, 28, Ok(2)),
];

// The places of a record of this width over the buffer.
fn places(buffer: &mut [u8], width: u16) -> Result<u64, MakeRefusal> {
    Ok(Record::new(buffer, width)?.free())
}

#[test]
fn making_answers_its_first_no(rt: HostRuntime) -> Result<(), Fail> {
    for (shown, width, size, expected) in &CASES {
        let mut buffer = vec![in rt.alloc(); 0u8; *size]?;
        assert_eq!(rt; numbered(places(&mut buffer, *width)), *expected, "{shown}");
    }
    Ok(())
}

// Offers the gates to a record over the buffer, and closes it.
fn write(buffer: &mut [u8], width: u16, gates: &[Gate]) {
    let mut record = Record::over(buffer, width);
    for gate in gates {
        let _ = record.offer(*gate);
    }
    record.close();
}

// The trailer has the distance, the width, two zero bytes and the T-count.
#[test]
fn a_gate_has_eight_bytes_and_the_trailer_twelve(rt: HostRuntime) {
    let mut buffer = [7; 50];
    const GATES: [Gate; 4] = [
        Gate::Not { t: 258 },
        Gate::Cnot { a: 259, t: 5 },
        Gate::And { a: 1, b: 260, t: 3 },
        Gate::Unand { a: 1, b: 2, t: 319 },
    ];
    write(&mut buffer, 320, &GATES);
    const BYTES: [u8; 50] = [
        0, 0, 0, 0, 0, 0, 2, 1, 1, 0, 3, 1, 0, 0, 5, 0, 2, 0, 1, 0, 4, 1, 3, 0, 3, 0, 1, 0, 2, 0,
        63, 1, 32, 0, 0, 0, 64, 1, 0, 0, 4, 0, 0, 0, 7, 7, 7, 7, 7, 7,
    ];
    assert_eq!(rt; buffer, BYTES);
}

#[test]
fn an_empty_record_is_its_trailer(rt: HostRuntime) {
    let mut buffer = [7; 15];
    write(&mut buffer, 5, &[]);
    assert_eq!(rt; buffer, [0, 0, 0, 0, 5, 0, 0, 0, 0, 0, 0, 0, 7, 7, 7]);
}
