ghost use Rattle.std.specs.Prelude.{◌≡◌};
ghost use Rattle.bristol.specs.Headers.{numbers_fit, header_of};

use refusals::TextRefusal;

// The most inputs, and the most outputs.
const PORT_LIMIT: u16 = 64;
// The most wires.
const WIRE_LIMIT: u16 = 1024;

// What a text says of its network before the gates.
#[derive(Clone, Copy)]
pub(crate) struct Header {
    pub gates: u16,
    pub wires: u16,
    pub inputs: u16,
    pub outputs: u16,
}

impl Header {
    // The header with these numbers, if they fit each other and the limits.
    pub(crate) fn new(
        gates: u16,
        wires: u16,
        inputs: u32,
        outputs: u32,
    ) -> Result<Header, TextRefusal>
        ensures is_theirs_if_they_fit { result ≡ header_of gates wires inputs outputs }
    {
        let header = Header {
            gates,
            wires,
            inputs: u16::try_from(inputs).map_err(|_| TextRefusal::Header)?,
            outputs: u16::try_from(outputs).map_err(|_| TextRefusal::Header)?,
        };
        if header.fits() {
            Ok(header)
        } else {
            Err(TextRefusal::Header)
        }
    }

    // Whether the numbers fit each other and the limits.
    fn fits(&self) -> bool
        ensures tells_if_they_fit { result ≡ numbers_fit self.now.gates self.now.wires self.now.inputs self.now.outputs }
    {
        (1..=PORT_LIMIT).contains(&self.inputs)
            && (1..=PORT_LIMIT).contains(&self.outputs)
            && self.inputs.checked_add(self.gates) == Some(self.wires)
            && (self.outputs..=WIRE_LIMIT).contains(&self.wires)
    }
}
