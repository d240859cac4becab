// Lists of wires, nodes and outputs are counted and read by 16-bit numbers: the conversions are said once here.
ghost use Rattle.std.specs.Prelude.{◌≡◌, ◌≤◌, length};
ghost use Rattle.std.specs.Slice.{IsGetResult};

// How many items there are; no list is longer than a wire's number tells.
pub(crate) fn count<T>(items: &[T]) -> u16
    requires short { length items.now ≤ 65535 }
    ensures is_their_number { result ≡ length items.now }
{
    items.len() as u16
}

// Item i, where there is one.
pub(crate) fn item<T>(items: &[T], i: u16) -> Option<&T>
    ensures is_item_i { IsGetResult items.now i i result }
{
    items.get(usize::from(i))
}
