// What the plugs of this example give, by their names.
ghost use Rattle.plug_example.specs.Maximum.{own_book};

use plug_logic::book::PlugBook;

/// The book of a program whose one plug is `maximum`.
pub struct Own;

impl PlugBook for Own {
    ghost lists = { own_book };
}
