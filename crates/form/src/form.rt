// A linear form: the XOR of a set of basis elements and a constant bit. An ascending vector: with a BTreeSet, drafts take
// more than twice the instructions, and the bar is 1.5 times (bench/README.md).
ghost use Rattle.std.specs.Prelude.{◌≡◌, true};
ghost use Rattle.form.specs.Sets.{ascending};

mod ops;

#[derive(Drop)]
pub struct Form {
    elements: Vec<u16>,
    constant: bool,
    ghost ordered: { ascending elements.items ≡ true },
}
