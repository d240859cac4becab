// A sealed network: a draft that has an output, with no call that adds a gate.
ghost use Rattle.std.specs.Prelude.{◌≤◌, vec_len};

use crate::draft::Draft;

mod ops;

#[derive(Drop)]
pub struct Network {
    pub(crate) draft: Draft,
    ghost some_output: { 1 ≤ vec_len draft.outputs },
}
