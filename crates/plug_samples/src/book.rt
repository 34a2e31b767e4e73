// What the plugs of these samples give, by their names.
ghost use Rattle.plug_samples.specs.Samples.{sample_book};

use plug_logic::book::PlugBook;

/// The book of these samples.
pub struct Samples;

impl PlugBook for Samples {
    ghost lists = { sample_book };
}
