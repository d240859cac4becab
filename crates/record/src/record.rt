// A record's fields, and what each of them keeps to.
ghost use Rattle.std.specs.Prelude.{◌≡◌, ◌≤◌, length, true};
ghost use Rattle.circuit.specs.Gates.{tcosts};
ghost use Rattle.record.specs.Bytes.{gates_of};
ghost use Rattle.record.specs.Fitting.{all_fit};
ghost use Rattle.record.specs.Making.{checked, places_at};

// The gates of a circuit, eight bytes each from the buffer's start; a close writes twelve bytes more. The gates lie in the
// caller's bytes, so their number stands beside, and a closed record still has them, so `closed` is a flag.
#[derive(Drop)]
pub struct Record<'a> {
    pub(crate) buffer: &'a mut [u8],
    pub(crate) width: u16,
    pub(crate) places: u16,
    pub(crate) count: u16,
    pub(crate) t_count: u32,
    pub(crate) closed: bool,
    // the places are those that `check` allows in the buffer
    pub ghost placed: { places ≡ places_at (checked width (length buffer.now)) (length buffer.now) },
    // each gate has a place
    pub ghost room: { count ≤ places },
    // the T-count is that of the gates held
    pub ghost exact: { t_count ≡ tcosts (gates_of count buffer.now) },
    // each gate held has lines below the width, no two the same
    pub ghost fit: { all_fit width count buffer.now ≡ true },
}
