// The parts of the words, told apart by `clap`.
ghost use Rattle.std.specs.Prelude.{◌≡◌, ◌<◌, ◌&&◌, List, ℕ, Some, None, true, false, map, length, IfOk, IfErr, nat_lt, not, codes, unwrap_or};
ghost use Rattle.std.specs.List.{list_all};
ghost use Rattle.std.specs.Str.{IsUtf8};
ghost use Rattle.clap.specs.Walk.{rule_of, Row};
ghost use Rattle.clap.specs.Simple.{app_of};
ghost use Rattle.run_report.specs.Parts.{Part, parts_of, files_of, values_of, generate, workers, turns, trace};
ghost use Rattle.run_report.specs.Shape.{file_rule, option_rule, streams_app, is_text, are_texts, value_list, text_in, SaysParts};
ghost use Rattle.run_report.specs.Asking.{only};

use crate::command::WordsEnd;
use clap::error::ErrorKind;
use clap::{Arg, ArgAction, ArgMatches, Command};
use elem_core::line::Line;
use std::alloc::{AllocError, Global};

/// What the words say: of each option its value, if it has one, and the same of the files; None where there are several.
#[derive(Drop)]
pub(crate) struct Said<'a> {
    pub(crate) file: Option<Option<&'a str>>,
    pub(crate) generate: Option<Option<&'a str>>,
    pub(crate) workers: Option<Option<&'a str>>,
    pub(crate) turns: Option<Option<&'a str>>,
    pub(crate) trace: Option<Option<&'a str>>,
    pub(crate) replay: Option<Option<&'a str>>,
}

fn are_ascii(bytes: &[u8]) -> bool
    ensures { result ≡ list_all (λ b. nat_lt b 128) bytes.now }
{
    bytes.iter().all(|b| *b < 128)
}

/// Whether the word may be part of a command: it is ASCII, and not `-` alone, which clap takes for a value.
fn is_text(word: &[u8]) -> bool
    ensures { result ≡ is_text word.now }
{
    are_ascii(word) && !(word == b"-".as_slice())
}

/// The text of a word that is ASCII.
fn text_of(word: &[u8]) -> Result<&str, WordsEnd>
    ensures ok { IfOk result (λ text. (text.now ≡ word.now) × (is_text word.now ≡ true)) }
    ensures err { IfErr result (λ end. (end ≡ WordsEnd.Usage) × (is_text word.now ≡ false)) }
{
    if !is_text(word) {
        return Err(WordsEnd::Usage);
    }
    match std::str::from_utf8(word) {
        Ok(text) => Ok(text),
        Err(_) => Err(WordsEnd::Usage),
    }
}

/// The texts of the words.
pub(crate) fn texts_of(alloc: Global, words: &[Line]) -> Result<Vec<&str>, WordsEnd>
    ensures ok { IfOk result (λ texts. (map (λ text. text.now) texts.items ≡ words.now) × (are_texts words.now ≡ true)) }
    ensures usage { result ≡ Err WordsEnd.Usage → are_texts words.now ≡ false }
{
    let mut texts = Vec::new(alloc);
    for word in words {
        let text = text_of(word.bytes())?;
        if texts.push(text).is_err() {
            return Err(WordsEnd::NoMemory);
        }
    }
    Ok(texts)
}

/// The option of that name, which may come several times.
fn option<'a>(alloc: Global, name: &'a str) -> Arg<'a>
    ensures rule { rule_of result ≡ option_rule name.now }
    ensures local { result.global ≡ false }
{
    Arg::new(alloc, name).long(name).action(ArgAction::Append)
}

/// The command as clap is told of it.
fn streams<'a>(alloc: Global) -> Result<Command<'a>, AllocError>
    ensures { IfOk result (λ command. app_of command ≡ streams_app) }
{
    let files = Arg::new(alloc, "file").action(ArgAction::Append);
    Command::new(alloc, "streams")
        .no_binary_name(true)
        .disable_help_flag(true)
        .arg(files)?
        .arg(option(alloc, "gen"))?
        .arg(option(alloc, "workers"))?
        .arg(option(alloc, "turns"))?
        .arg(option(alloc, "trace"))?
        .arg(option(alloc, "replay"))
}

/// The words told apart, or Usage where one is an unknown option or an option without a value.
pub(crate) fn matches_of<'a>(
    alloc: Global,
    texts: &'a [&'a str],
) -> Result<ArgMatches<'a>, WordsEnd>
    requires { are_texts (map (λ text. text.now) texts.now) ≡ true }
    ensures ok { IfOk result (SaysParts (parts_of (map (λ text. text.now) texts.now))) }
    ensures usage { result ≡ Err WordsEnd.Usage → parts_of (map (λ text. text.now) texts.now) ≡ None }
{
    match streams(alloc)?.try_get_matches_from(texts) {
        Ok(matches) => Ok(matches),
        Err(error) => match error.kind() {
            ErrorKind::OutOfMemory => Err(WordsEnd::NoMemory),
            _ => Err(WordsEnd::Usage),
        },
    }
}

/// The value of that name, if it has one; None where there are several.
fn value_of<'a>(matches: &ArgMatches<'a>, name: &str) -> Option<Option<&'a str>>
    ensures { text_in result ≡ only (value_list matches.now name.now) }
{
    match matches.get_strs(name) {
        None | Some([]) => Some(None),
        Some([value]) => Some(Some(value)),
        Some(_) => None,
    }
}

/// What the words say.
pub(crate) fn parts_in<'a>(matches: &ArgMatches<'a>) -> Said<'a>
    ensures file { text_in result.file ≡ only (value_list matches.now (codes "file")) }
    ensures generate { text_in result.generate ≡ only (value_list matches.now (codes "gen")) }
    ensures workers { text_in result.workers ≡ only (value_list matches.now (codes "workers")) }
    ensures turns { text_in result.turns ≡ only (value_list matches.now (codes "turns")) }
    ensures trace { text_in result.trace ≡ only (value_list matches.now (codes "trace")) }
    ensures replay { text_in result.replay ≡ only (value_list matches.now (codes "replay")) }
{
    Said {
        file: value_of(matches, "file"),
        generate: value_of(matches, "gen"),
        workers: value_of(matches, "workers"),
        turns: value_of(matches, "turns"),
        trace: value_of(matches, "trace"),
        replay: value_of(matches, "replay"),
    }
}
