// The forms of declarations, as they are told: which words may stand where.
ghost use Rattle.std.specs.Prelude.{◌≤◌, length};

use blue_words::lines::cut_at;
use blue_words::names::{is_file_name, is_name};
use blue_words::places::{count_place, int_place, size_place};
use blue_words::words::is_word;

/// The form of a whole line.
pub(crate) const LINE: &[u8] = b"LINE";

/// The same in a text of version 2.
pub(crate) const SECOND_LINE: &[u8] = b"LINE2";

/// The steps that a chain may have, which are stages too.
const STEPS: &[u8] =
    b"map F?decider, filter P?decider, filter_not P?decider, take_while P?decider, drop_while P?decider, take N, drop N, limit N, grouped N^, map_concat X?decider, fold O?decider, scan O?decider, reduce R?decider";

/// The stages that a chain may not have.
const STAGES: &[u8] =
    b"buffer N^ POLICY, recover VALUE, valve NAME, trip NAME ORDER, plug NAME, custom NAME, group_by N^ F each NAME merge, split_when P each NAME JOINING, split_after P each NAME JOINING, merge N^, concat N^, interleave N^ N^, merge_sorted, zip, broadcast N^, balance N^, partition N^ F, unzip";

/// The stages that only a text of version 2 may have.
const LATER_STAGES: &[u8] = b"merge_hub N^ N^, broadcast_hub N^ N^";

/// The functions of an element.
const FUNCTIONS: &[u8] =
    b"num, show, add K, mul K, div K, rem K, div_into K, neg, abs, nonneg, len, field N, prefix WORD, suffix WORD, first, second, swap, twin, size, sum";

/// The predicates.
const PREDICATES: &[u8] =
    b"even, odd, lt K, le K, gt K, ge K, eq K, multiple K, blank, has WORD, starts WORD, is WORD, numeric, field_is N WORD";

/// The forms of a symbol that lines and edges of the graph have, parted by `, `.
fn forms_of_lines(symbol: &[u8]) -> Option<&'static [u8]> {
    if is_word(symbol, LINE) {
        Some(
            b"switch NAME, chain NAME STEP?more, source NAME SOURCE, stage NAME STAGE, sink NAME SINK, wire NAME.N -> NAME.N?lane",
        )
    } else if is_word(symbol, SECOND_LINE) {
        Some(
            b"default ATTRS, switch NAME, chain NAME STEP?more, module NAME?attrs, source NAME SOURCE, stage NAME STAGE^, sink NAME SINK, use NAME NAME?attrs, wire PLACE -> PLACE?kept, in NAME = PLACE, out NAME = PLACE, end",
        )
    } else if is_word(symbol, b"ATTRS") || is_word(symbol, b"?attrs") {
        Some(b"async N^?decider, decider DECIDER")
    } else if is_word(symbol, b"SOURCE") {
        Some(b"lines FILE, range K K, empty BASE, failed BASE")
    } else if is_word(symbol, b"SINK") {
        Some(b"lines FILE, head FILE, last FILE, ignore")
    } else if is_word(symbol, b"BASE") {
        Some(b"num, text")
    } else if is_word(symbol, b"?lane") {
        Some(b"async?size")
    } else if is_word(symbol, b"?kept") {
        Some(b"async?mark")
    } else if is_word(symbol, b"?mark") {
        Some(b"keep, N^?keep")
    } else if is_word(symbol, b"?keep") {
        Some(b"keep")
    } else if is_word(symbol, b"?size") {
        Some(b"N^")
    } else if is_word(symbol, b"?more") {
        Some(b"| STEP?more")
    } else {
        None
    }
}

/// The forms of a symbol that only stages have.
fn forms_of_stages(symbol: &[u8]) -> Option<&'static [u8]> {
    if is_word(symbol, b"POLICY") {
        Some(b"backpressure, drop_head, drop_tail, drop_buffer, drop_new, fail")
    } else if is_word(symbol, b"VALUE") {
        Some(b"num K, text WORD")
    } else if is_word(symbol, b"ORDER") {
        Some(b"shutdown N^, abort N^")
    } else if is_word(symbol, b"JOINING") {
        Some(b"merge, concat")
    } else if is_word(symbol, b"?decider") {
        Some(b"decider DECIDER")
    } else if is_word(symbol, b"DECIDER") {
        Some(b"stop, resume, restart")
    } else {
        None
    }
}

/// The forms of a symbol that functions and steps have.
fn forms_of_functions(symbol: &[u8]) -> Option<&'static [u8]> {
    if is_word(symbol, b"F") {
        Some(FUNCTIONS)
    } else if is_word(symbol, b"P") {
        Some(PREDICATES)
    } else if is_word(symbol, b"X") {
        Some(b"words, flat, twice")
    } else if is_word(symbol, b"O") {
        Some(b"sum, sum_nonneg, count, collect")
    } else if is_word(symbol, b"R") {
        Some(b"sum, max, min")
    } else {
        None
    }
}

/// What may stand for a symbol.
#[derive(Clone, Copy)]
pub(crate) struct Forms {
    /// Lists of forms parted by `, `, of which the later ones may be empty.
    pub first: &'static [u8],
    pub second: &'static [u8],
    pub third: &'static [u8],
}

/// One list of forms.
fn one_list(first: &'static [u8]) -> Forms {
    Forms {
        first,
        second: b"",
        third: b"",
    }
}

/// The stages, of which the last list is for version 2 alone.
fn stages(third: &'static [u8]) -> Forms {
    Forms {
        first: STEPS,
        second: STAGES,
        third,
    }
}

/// What may stand for a symbol. None for one that is one word.
pub(crate) fn forms_of(symbol: &[u8]) -> Option<Forms> {
    if is_word(symbol, b"STEP") {
        return Some(one_list(STEPS));
    }
    if is_word(symbol, b"STAGE") {
        return Some(stages(b""));
    }
    if is_word(symbol, b"STAGE^") {
        return Some(stages(LATER_STAGES));
    }
    let forms = match forms_of_lines(symbol) {
        Some(forms) => Some(forms),
        None => match forms_of_stages(symbol) {
            Some(forms) => Some(forms),
            None => forms_of_functions(symbol),
        },
    };
    match forms {
        Some(forms) => Some(one_list(forms)),
        None => None,
    }
}

/// Whether the symbol may be left out.
pub(crate) fn is_optional(symbol: &[u8]) -> bool {
    symbol.starts_with(b"?")
}

/// Where the first symbol of a form ends: before a space or a `?`.
fn end_of_symbol(form: &[u8]) -> usize
    ensures { result ≤ length form.now }
{
    for i in 1..form.len() {
        if matches!(form[i], b' ' | b'?') {
            return i;
        }
    }
    form.len()
}

/// The first symbol of a form, and what stands behind it.
pub(crate) fn first_symbol(form: &'static [u8]) -> (&'static [u8], &'static [u8]) {
    let end = end_of_symbol(form);
    let symbol = &form[..end];
    let rest = &form[end..];
    (symbol, rest.strip_prefix(b" ").unwrap_or(rest))
}

/// The first of a list of forms, and the later ones.
fn first_form(forms: &'static [u8]) -> (&'static [u8], &'static [u8]) {
    match cut_at(forms, b',') {
        Some((form, rest)) => (form, rest.strip_prefix(b" ").unwrap_or(rest)),
        None => (forms, b""),
    }
}

/// Whether a word is an end of a wire: a name, a point and a number.
fn is_port(word: &[u8]) -> bool {
    match cut_at(word, b'.') {
        Some((name, number)) => is_name(name) && size_place(number).is_ok(),
        None => false,
    }
}

/// Whether a word is a place of version 2: a name, a point, and a number or a name.
fn is_marked(word: &[u8]) -> bool {
    match cut_at(word, b'.') {
        Some((name, mark)) => is_name(name) && (is_name(mark) || size_place(mark).is_ok()),
        None => false,
    }
}

/// Whether a symbol is a place: a word that is not fixed.
fn is_place(symbol: &[u8]) -> bool {
    match symbol.first() {
        Some(first) => first.is_ascii_uppercase(),
        None => false,
    }
}

/// Whether the word is what such a place wants.
fn is_value_of(symbol: &[u8], word: &[u8]) -> bool {
    if is_word(symbol, b"NAME") {
        is_name(word)
    } else if is_word(symbol, b"FILE") {
        is_file_name(word)
    } else if is_word(symbol, b"K") {
        int_place(word).is_ok()
    } else if is_word(symbol, b"N") {
        count_place(word).is_ok()
    } else if is_word(symbol, b"N^") {
        size_place(word).is_ok()
    } else if is_word(symbol, b"NAME.N") {
        is_port(word)
    } else if is_word(symbol, b"PLACE") {
        is_marked(word)
    } else {
        true
    }
}

/// Whether a word may stand for a symbol that is one word: the fixed word, or any word at a place, where an end of a wire has a point.
/// With `exact` the names, files and numbers of places are looked at too.
pub(crate) fn fits(symbol: &[u8], word: &[u8], exact: bool) -> bool {
    if !is_place(symbol) {
        is_word(word, symbol)
    } else if exact {
        is_value_of(symbol, word)
    } else {
        !(is_word(symbol, b"NAME.N") || is_word(symbol, b"PLACE")) || cut_at(word, b'.').is_some()
    }
}

/// The first of a list of forms that the word may begin.
pub(crate) fn form_begun(forms: &'static [u8], word: &[u8], exact: bool) -> Option<&'static [u8]> {
    let mut rest = forms;
    for _ in 0..forms.len() {
        let (form, later) = first_form(rest);
        let (symbol, _) = first_symbol(form);
        if !form.is_empty() && fits(symbol, word, exact) {
            return Some(form);
        }
        rest = later;
    }
    None
}
