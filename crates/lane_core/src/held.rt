// The elements that wait, first come first.
ghost use Rattle.std.specs.Prelude.{◌≡◌, ◌≢◌, ◌<◌, ◌++◌, [], ◌∷◌, true, false, Some, IfSome, IfNone, length};
ghost use Rattle.elem_core.specs.declared.item.Item.TheVariants as item;
ghost use Rattle.stage_core.specs.Held.{told};
ghost use Rattle.lane_core.specs.Flow.{drops};
ghost use Rattle.lane_core.specs.declared.state.State.TheVariants.{Flowing};
ghost use Rattle.stream_model.specs.Outlook.{unended};

use crate::state::State;
use circular_buffer::HeapCircularBuffer;
use elem_core::elem::Elem;
use elem_core::item::Item;
use elem_core::trace::Trace;

// An element goes behind those that wait.
pub(crate) fn hold(held: &mut HeapCircularBuffer<Elem>, e: Elem)
    requires { length held.old.items < held.old.capacity }
    ensures { (held.new.items ≡ held.old.items ++ e ∷ []) × (held.new.capacity ≡ held.old.capacity) }
{
    match held.try_push_back(e) {
        Ok(()) => {}
        Err(_) => unreachable!(),
    }
}

// Takes out the first that waits.
pub(crate) fn next_held(held: &mut HeapCircularBuffer<Elem>) -> Option<Elem>
    ensures capacity { held.new.capacity ≡ held.old.capacity }
    ensures some { IfSome result (λ e. held.old.items ≡ e ∷ held.new.items) }
    ensures none { IfNone result ((held.old.items ≡ []) × (held.new ≡ held.old)) }
{
    held.pop_front()
}

// Drops an element that is not wanted any more, and notes it as dropped. Out of line, since it comes only behind a cancel.
#[inline(never)]
pub(crate) fn drop_one(e: Elem, lost: &mut Trace<Item>)
    ensures { lost.new.items ≡ lost.old.items ++ item.Elem e ∷ [] }
{
    *lost = lost.and(&Item::Elem(e));
}

// Drops all that wait, and notes them as dropped.
pub(crate) fn drop_all(held: &mut HeapCircularBuffer<Elem>, lost: &mut Trace<Item>)
    ensures none { (held.new.items ≡ []) × (held.new.capacity ≡ held.old.capacity) }
    ensures lost { lost.new.items ≡ lost.old.items ++ told held.old.items unended }
{
    while let Some(e) = next_held(held) {
        let item = Item::Elem(e);
        *lost = lost.and(&item);
        drop(item);
    }
}

// An end came, and waits where what comes is handed on. Behind a normal one the elements that wait go on waiting, and a failure drops
// them, unless the lane keeps them. Out of line, since it comes once.
#[inline(never)]
pub(crate) fn end_with(
    keep: bool,
    state: State,
    end: Item,
    held: &mut HeapCircularBuffer<Elem>,
    pending: &mut Option<Item>,
    lost: &mut Trace<Item>,
)
    ensures capacity { held.new.capacity ≡ held.old.capacity }
    ensures normal { drops keep (end ∷ []) ≡ false → (lost.new.items ≡ lost.old.items) × (held.new.items ≡ held.old.items) }
    ensures failure { drops keep (end ∷ []) ≡ true → (lost.new.items ≡ lost.old.items ++ told held.old.items unended) × (held.new.items ≡ []) }
    ensures flows { state ≡ Flowing → pending.new ≡ Some end }
    ensures stays { state ≢ Flowing → pending.new ≡ pending.old }
{
    if !keep {
        if let Item::Failed(_) = &end {
            drop_all(held, lost);
        }
    }
    if let State::Flowing = state {
        *pending = Some(end);
    }
}
