// A gate's eight bytes, and the twelve that end a record.
ghost use Rattle.std.specs.Prelude.{◌≡◌, ◌≤◌, ◌++◌, length, drop};
ghost use Rattle.record.specs.Bytes.{encoded, parsed, trailer};

use circuit::Gate;

// A gate's kind, a zero byte and three numbers, low byte first; a number that it does not use is 0. Kinds are numbers,
// since a kind is a byte of the record's format. A function, since `From` is not to be had between two foreign types.
fn eight_bytes(g: Gate) -> [u8; 8]
    ensures are_the_gates { result ≡ encoded g }
{
    let (kind, a, b, t) = match g {
        Gate::Not { t } => (0, 0, 0, t),
        Gate::Cnot { a, t } => (1, a, 0, t),
        Gate::And { a, b, t } => (2, a, b, t),
        Gate::Unand { a, b, t } => (3, a, b, t),
    };
    let [a0, a1] = a.to_le_bytes();
    let [b0, b1] = b.to_le_bytes();
    let [t0, t1] = t.to_le_bytes();
    [kind, 0, a0, a1, b0, b1, t0, t1]
}

// Writes a gate at the front of the free part of a buffer.
pub(crate) fn encode(out: &mut [u8], g: Gate)
    requires has_room { 8 ≤ length out.old }
    ensures writes_the_gate { out.new ≡ encoded g ++ drop 8 out.old }
{
    out[..8].copy_from_slice(&eight_bytes(g));
}

// The gate that eight bytes stand for, where they have the form that `encode` writes. Its kind is a byte of the format.
pub(crate) fn decode(bytes: &[u8]) -> Option<Gate>
    ensures is_parsed { result ≡ parsed bytes.now }
{
    let &[kind, 0, a0, a1, b0, b1, t0, t1] = bytes else {
        return None;
    };
    let a = u16::from_le_bytes([a0, a1]);
    let b = u16::from_le_bytes([b0, b1]);
    let t = u16::from_le_bytes([t0, t1]);
    match (kind, a, b) {
        (0, 0, 0) => Some(Gate::Not { t }),
        (1, a, 0) => Some(Gate::Cnot { a, t }),
        (2, a, b) => Some(Gate::And { a, b, t }),
        (3, a, b) => Some(Gate::Unand { a, b, t }),
        _ => None,
    }
}

// Writes the bytes that end a record: the distance back to its first gate, its width and its T-count.
pub(crate) fn write_trailer(out: &mut [u8], distance: u32, width: u16, t_count: u32)
    requires has_room { 12 ≤ length out.old }
    ensures writes_the_trailer { out.new ≡ trailer distance width t_count ++ drop 12 out.old }
{
    let [d0, d1, d2, d3] = distance.to_le_bytes();
    let [w0, w1] = width.to_le_bytes();
    let [t0, t1, t2, t3] = t_count.to_le_bytes();
    let bytes = [d0, d1, d2, d3, w0, w1, 0, 0, t0, t1, t2, t3];
    out[..12].copy_from_slice(&bytes);
}
