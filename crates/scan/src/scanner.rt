ghost use Rattle.std.specs.Prelude.{◌≤◌, length};

mod ops;

// Reads a text token by token: what stands before `at` has been read. The place is kept, since a token says its own.
#[derive(Drop)]
pub struct Scanner<'a> {
    source: &'a [u8],
    at: usize,
    ghost inside: { at ≤ length source.now },
}
