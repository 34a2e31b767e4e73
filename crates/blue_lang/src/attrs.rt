// What a text, a module or an instance sets for its lanes and stages.
ghost use Rattle.blue_words.specs.Reading.{Reads};
ghost use Rattle.blue_lang.specs.Declarations.{read_attrs, read_some_attrs};

use blue_kinds::decider::read_decider;
use blue_modules::text::Attrs;
use blue_words::fault::{FormEnd, PlaceValue, Version};
use blue_words::places::both;
use blue_words::words::Words;

// `async` with a size, and a decider behind it or none; or a decider alone; or nothing.
pub(crate) fn read_attrs(words: &mut Words) -> Result<PlaceValue<Attrs>, FormEnd>
    ensures { Reads result (read_attrs words.old) words.new }
{
    if words.skip(b"async") {
        let size = words.size()?;
        let decider = read_decider(Version::Second, true, words)?;
        Ok(both(size, decider).map(|(size, decider)| Attrs {
            size: Some(size),
            decider,
        }))
    } else {
        let decider = read_decider(Version::Second, true, words)?;
        Ok(decider.map(|decider| Attrs {
            size: None,
            decider,
        }))
    }
}

// The same, of one word or more.
pub(crate) fn read_some_attrs(words: &mut Words) -> Result<PlaceValue<Attrs>, FormEnd>
    ensures { Reads result (read_some_attrs words.old) words.new }
{
    if words.is_empty() {
        Err(FormEnd::BadLine)
    } else {
        read_attrs(words)
    }
}
