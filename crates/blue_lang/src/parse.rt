// How a text is read.
ghost use Rattle.std.specs.Prelude.{◌≡◌, ◌≤◌, [], length, IfOk, OnOk, Ok, Err, Some, true};
ghost use Rattle.elem_core.specs.Text.{lines};
ghost use Rattle.blue_words.specs.declared.fault.BlueKind.{BlueKind};
ghost use Rattle.blue_words.specs.declared.fault.BlueFault.{BlueFault};
ghost use Rattle.blue_modules.specs.Text.{plain_text};
ghost use Rattle.blue_lang.specs.Declarations.{is_misplaced};
ghost use Rattle.blue_lang.specs.Ends.{stop_end};
ghost use Rattle.blue_lang.specs.Plain.{plain_declaration};
ghost use Rattle.blue_lang.specs.Progress.{sofar, context, with_declaration, DeclaresWords, Declares, ReadsLine};
ghost use Rattle.blue_lang.specs.Texts.{Says, SaysLines, text_fault, first_fault, line_fault, said_fault, words_fault, declaration_fault, has_room, version_named, version_word, version_of_words, version_of};

use crate::declarations::{Declaration, read_declaration};
use crate::progress::{Progress, add, has_room, is_begun, is_inside, none_yet};
use blue_modules::text::BlueText;
use blue_words::fault::{BlueFault, BlueKind, Version};
use blue_words::lines::{is_passed_over, is_plain, next_line};
use blue_words::words::{Words, is_word};
use std::alloc::Global;
use stream_model::limit::{MAX_TEXT, MAX_TEXT_LINE};

/// Why a text says nothing.
#[derive(Clone, Copy)]
pub enum ParseEnd {
    /// The text has a fault; it is the first.
    Fault(BlueFault),
    /// Memory was refused.
    NoMemory,
}

// Why a line was not taken.
#[derive(Drop)]
enum Stop {
    // What is wrong with it.
    Fault(BlueKind),
    // Memory was refused.
    NoMemory,
}

/// What a text of either version says, in one pass over its bytes, or the first fault of the text. Want of memory may come in its
/// place at any text.
///
/// A text is lines ended by LF; a last one without LF counts. Its first fault is that of the first line at fault; a text
/// of more than 1,048,576 bytes is at fault as a whole. Akka Streams has no text for a graph, so its rules are this project's.
pub fn parse(alloc: Global, text: &[u8]) -> Result<BlueText, ParseEnd>
    ensures ok { IfOk result (λ t. Says text.now (plain_text t)) }
    ensures fault { (f : BlueFault) → result ≡ Err (ParseEnd.Fault f) → text_fault text.now ≡ Some f }
{
    if text.len() > MAX_TEXT {
        let kind = BlueKind::TooLong;
        return Err(ParseEnd::Fault(BlueFault { kind, line: 0 }));
    }
    read_text(alloc, text)
}

fn read_text(alloc: Global, text: &[u8]) -> Result<BlueText, ParseEnd>
    requires { length text.now ≤ 1048576 }
    ensures ok { IfOk result (λ t. SaysLines (lines text.now) (plain_text t)) }
    ensures fault { (f : BlueFault) → result ≡ Err (ParseEnd.Fault f) → first_fault [] (lines text.now) ≡ Some f }
{
    let mut progress = none_yet(alloc);
    let mut rest = text;
    let mut number = 0;
    while let Some((line, after)) = next_line(rest) {
        number += 1;
        match read_line(alloc, &mut progress, line) {
            Ok(()) => rest = after,
            Err(stop) => return Err(fault_at(stop, number)),
        }
    }
    if !is_begun(&progress) {
        return Err(fault_at(Stop::Fault(BlueKind::BadVersion), 0));
    }
    if is_inside(&progress) {
        return Err(fault_at(Stop::Fault(BlueKind::BadLine), 0));
    }
    Ok(progress.text)
}

fn fault_at(stop: Stop, line: u32) -> ParseEnd
    ensures { result ≡ stop_end stop line }
{
    match stop {
        Stop::Fault(kind) => ParseEnd::Fault(BlueFault { kind, line }),
        Stop::NoMemory => ParseEnd::NoMemory,
    }
}

fn read_line(alloc: Global, progress: &mut Progress, line: &[u8]) -> Result<(), Stop>
    ensures ok { OnOk result (ReadsLine progress.old.version (sofar progress.old) line.now progress.new.version (sofar progress.new)) }
    ensures fault { (k : BlueKind) → result ≡ Err (Stop.Fault k) → line_fault progress.old.version (context (sofar progress.old)) line.now ≡ Some k }
{
    if line.len() > MAX_TEXT_LINE {
        return Err(Stop::Fault(BlueKind::TooLong));
    }
    if is_passed_over(line) {
        return Ok(());
    }
    match progress.version {
        Some(version) => declare(alloc, progress, version, line),
        None => match version_of(line) {
            Some(version) => {
                progress.version = Some(version);
                Ok(())
            }
            None => Err(Stop::Fault(BlueKind::BadVersion)),
        },
    }
}

// The version that a line names.
fn version_of(line: &[u8]) -> Option<Version>
    requires { length line.now ≤ 1024 }
    ensures { result ≡ version_of line.now }
{
    if !is_plain(line) {
        return None;
    }
    let mut words = Words::of(line);
    version_of_words(&mut words)
}

fn version_of_words(words: &mut Words) -> Option<Version>
    ensures { result ≡ version_of_words words.old }
{
    let Some(word) = words.next() else {
        return None;
    };
    if is_word(word, b"streams") {
        version_word(words)
    } else {
        None
    }
}

fn version_word(words: &mut Words) -> Option<Version>
    ensures { result ≡ version_word words.old }
{
    let Some(word) = words.next() else {
        return None;
    };
    if words.is_empty() {
        version_named(word)
    } else {
        None
    }
}

fn version_named(word: &[u8]) -> Option<Version>
    ensures { result ≡ version_named word.now }
{
    if is_word(word, b"1") {
        return Some(Version::First);
    }
    if is_word(word, b"2") {
        return Some(Version::Second);
    }
    None
}

// Choice: docs/DECISIONS.md#first-word-decides-place
// Whether a line with this first word may not stand here: in a module, and outside of one.
fn is_misplaced(inside: bool, defaulted: bool, word: &[u8]) -> bool
    ensures { result ≡ is_misplaced inside defaulted word.now }
{
    if inside {
        is_word(word, b"module")
            || is_word(word, b"switch")
            || is_word(word, b"chain")
            || is_word(word, b"default")
    } else if is_word(word, b"default") {
        defaulted
    } else {
        is_word(word, b"end") || is_word(word, b"in") || is_word(word, b"out")
    }
}

// Adds what a line declares that is not passed over, behind the version line.
fn declare(
    alloc: Global,
    progress: &mut Progress,
    version: Version,
    line: &[u8],
) -> Result<(), Stop>
    requires { length line.now ≤ 1024 }
    ensures ok { OnOk result (Declares version (sofar progress.old) line.now (sofar progress.new)) }
    ensures version { progress.new.version ≡ progress.old.version }
    ensures fault { (k : BlueKind) → result ≡ Err (Stop.Fault k) → said_fault version (context (sofar progress.old)) line.now ≡ Some k }
{
    if !is_plain(line) {
        return Err(Stop::Fault(BlueKind::BadLine));
    }
    let mut words = Words::of(line);
    declare_words(alloc, progress, version, &mut words)
}

fn declare_words(
    alloc: Global,
    progress: &mut Progress,
    version: Version,
    words: &mut Words,
) -> Result<(), Stop>
    ensures ok { OnOk result (DeclaresWords version (sofar progress.old) words.old (sofar progress.new)) }
    ensures version { progress.new.version ≡ progress.old.version }
    ensures fault { (k : BlueKind) → result ≡ Err (Stop.Fault k) → words_fault version (context (sofar progress.old)) words.old ≡ Some k }
{
    let Some(word) = words.next() else {
        return Err(Stop::Fault(BlueKind::BadLine));
    };
    if is_misplaced(is_inside(progress), progress.defaulted, word) {
        return Err(Stop::Fault(BlueKind::BadLine));
    }
    match read_declaration(alloc, version, word, words) {
        Ok(Ok(declaration)) => declare_one(alloc, progress, declaration),
        Ok(Err(kind)) => Err(Stop::Fault(kind)),
        Err(_) => Err(Stop::NoMemory),
    }
}

fn declare_one(alloc: Global, progress: &mut Progress, declaration: Declaration) -> Result<(), Stop>
    ensures room { OnOk result (has_room (context (sofar progress.old)) (plain_declaration declaration) ≡ true) }
    ensures adds { OnOk result (sofar progress.new ≡ with_declaration (sofar progress.old) (plain_declaration declaration)) }
    ensures version { progress.new.version ≡ progress.old.version }
    ensures fault { (k : BlueKind) → result ≡ Err (Stop.Fault k) → declaration_fault (context (sofar progress.old))
        (Ok (plain_declaration declaration)) ≡ Some k }
{
    if !has_room(progress, &declaration) {
        return Err(Stop::Fault(BlueKind::TooMany));
    }
    match add(alloc, progress, declaration) {
        Ok(()) => Ok(()),
        Err(_) => Err(Stop::NoMemory),
    }
}
