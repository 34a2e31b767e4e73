// What plugs give, by their names.
ghost use Rattle.stream_model.specs.Linear.{Book};
ghost use Rattle.plug_logic.specs.Shipped.{shipped_book};

/// What the plugs of a program give, by their names, which of its custom stages tell a list, and what they give. It has no calls.
pub trait PlugBook {
    ghost lists: { Book };
}

/// The book of the plugs that the program ships: `dedup` and `pairsum`. A plug of any other name gives nothing, and no custom stage tells
/// a list.
pub struct Shipped;

impl PlugBook for Shipped {
    ghost lists = { shipped_book };
}
