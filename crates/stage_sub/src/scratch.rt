ghost use Rattle.std.specs.Prelude.{◌≡◌, []};

use elem_core::elems::Elems;

/// Drops what a call that failed left there. It takes no memory.
pub fn clear(scratch: &mut Elems)
    ensures { scratch.new ≡ [] }
{
    while let Some(_) = scratch.take() {}
}
