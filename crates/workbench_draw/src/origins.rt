// Where the parts of a blueprint are declared in its text, whose modules may be used in many places.
use crate::place::{FaultPlace, Sort};
use blue_modules::counts::Counted;
use blue_modules::text::Entry;
use elem_core::line::Line;

/// A declaration in a text: in which module, from 0, or in none, and which of its sort it is there, from 0.
#[derive(Clone, Copy)]
pub struct TextPlace {
    /// The module.
    pub body: Option<usize>,
    /// What is declared.
    pub sort: Sort,
    /// Which one.
    pub number: usize,
}

/// What comes of an entry of a body, where so many parts of a sort stand before the one that is looked for.
enum Step<'a> {
    /// The entry declares it.
    Here,
    /// It is in the instance of that module, behind so many.
    Within(&'a Line, usize),
    /// It is behind the entry, where so many are left before it, and the entry declares one or none.
    Behind(usize, bool),
}

/// How many parts of that sort an instance of the module of that name has.
fn parts_in(book: &[Counted<'_>], of: &Line, sort: Sort) -> usize {
    for counted in book {
        if counted.of.name == *of {
            return match sort {
                Sort::Node => counted.nodes as usize,
                Sort::Wire => counted.wires as usize,
                _ => 0,
            };
        }
    }
    0
}

/// The step at an entry that declares a part of the sort that is looked for.
fn step_at<'a>(left: usize) -> Step<'a> {
    if left == 0 {
        Step::Here
    } else {
        Step::Behind(left - 1, true)
    }
}

fn step_past<'a>(book: &[Counted<'_>], sort: Sort, entry: &'a Entry, left: usize) -> Step<'a> {
    match entry {
        Entry::Node(_) if sort == Sort::Node => step_at(left),
        Entry::Wire(_) if sort == Sort::Wire => step_at(left),
        Entry::Instance(instance) => {
            let parts = parts_in(book, &instance.of, sort);
            if left < parts {
                Step::Within(&instance.of, left)
            } else {
                Step::Behind(left - parts, false)
            }
        }
        _ => Step::Behind(left, false),
    }
}

// Choice: docs/DECISIONS.md#origin-by-counts
/// Where a part of the blueprint of a body is declared; the modules that it may use, the latest first.
#[cycle(origin)]
pub fn origin(
    book: &[Counted<'_>],
    body: Option<usize>,
    entries: &[Entry],
    place: FaultPlace,
) -> Option<TextPlace> {
    let mut left = place.number;
    let mut number: usize = 0;
    for entry in entries {
        match step_past(book, place.sort, entry, left) {
            Step::Here => {
                return Some(TextPlace {
                    body,
                    sort: place.sort,
                    number,
                });
            }
            Step::Within(of, inner) => {
                return origin_in(book, of, FaultPlace::of(place.sort, inner));
            }
            Step::Behind(later, is_one) => {
                left = later;
                number = number.saturating_add(usize::from(is_one));
            }
        }
    }
    None
}

/// The same in an instance of the module of that name.
#[cycle(origin)]
fn origin_in(book: &[Counted<'_>], of: &Line, place: FaultPlace) -> Option<TextPlace> {
    match book.split_first() {
        None => None,
        Some((first, rest)) => {
            if first.of.name == *of {
                origin(rest, Some(rest.len()), &first.of.body, place)
            } else {
                origin_in(rest, of, place)
            }
        }
    }
}
