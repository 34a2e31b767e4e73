// Which of a command's words is at fault, and why.
use blue_words::names::is_file_name;
use blue_words::places::count_place;
use blue_words::words::is_word;
use elem_core::line::Line;
use elem_core::why::NoMemory;
use std::alloc::Global;
use workbench_draw::message::put_shown;

/// The options, each with what it asks for.
const OPTIONS: &[u8] = b"\
streams (FILE | --gen N) [--workers N] [--turns N] [--trace FILE] [--replay FILE]
  FILE           the blueprint, a file of this folder
  --gen N        generate N lines, 1 to 10000000, with a blueprint, and run that
  --workers N    threads, 1 to 64; without it 1
  --turns N      units of work at most, 1 to 4000000000; without it 100000000
  --trace FILE   write what the stages chose into FILE
  --replay FILE  let the stages choose as FILE says; without --gen and --workers
`man streams` has the manual.
";

/// An option of the command.
#[derive(Drop, Clone, Copy, PartialEq, Eq)]
enum Setting {
    Generate,
    Workers,
    Turns,
    Trace,
    Replay,
}

impl Setting {
    /// The word of the option.
    fn word(self) -> &'static [u8] {
        match self {
            Setting::Generate => b"--gen",
            Setting::Workers => b"--workers",
            Setting::Turns => b"--turns",
            Setting::Trace => b"--trace",
            Setting::Replay => b"--replay",
        }
    }

    /// The option of that word.
    fn of(word: &[u8]) -> Option<Setting> {
        for setting in [
            Setting::Generate,
            Setting::Workers,
            Setting::Turns,
            Setting::Trace,
            Setting::Replay,
        ] {
            if is_word(word, setting.word()) {
                return Some(setting);
            }
        }
        None
    }

    /// The greatest number that the option takes, and that number as text.
    fn most(self) -> (u64, &'static [u8]) {
        match self {
            Setting::Generate => (10_000_000, b"10000000"),
            Setting::Workers => (64, b"64"),
            _ => (4_000_000_000, b"4000000000"),
        }
    }
}

/// What is wrong with words.
#[derive(Drop, Clone, Copy)]
enum Mistake<'a> {
    /// A word is empty, or has bytes that are no ASCII, or is `-`.
    NoText(&'a [u8]),
    /// It asks for help.
    Help(&'a [u8]),
    Unknown(&'a [u8]),
    Lacks(Setting),
    Repeated(Setting),
    NoInput,
    OneTooMany(&'a [u8]),
    BesideGenerate(&'a [u8]),
    /// It names a file of another folder.
    Path(&'a [u8]),
    NoFileName(&'a [u8]),
    /// The value of the option is no number within its limits.
    NoNumber(Setting, &'a [u8]),
    /// The option names the file that the blueprint or the other option names.
    SameFile(Setting, &'a [u8]),
    BesideReplay(Setting),
    /// It is none of these.
    Other,
}

/// What the words say so far.
#[derive(Drop)]
struct Said<'a> {
    file: Option<&'a [u8]>,
    generate: Option<&'a [u8]>,
    workers: Option<&'a [u8]>,
    turns: Option<&'a [u8]>,
    trace: Option<&'a [u8]>,
    replay: Option<&'a [u8]>,
}

/// What the next word is.
#[derive(Drop, Clone, Copy)]
enum Next {
    /// An option or a file.
    Any,
    /// The value of an option.
    Value(Setting),
    /// A file, as all that follow.
    File,
}

impl<'a> Said<'a> {
    fn nothing() -> Said<'a> {
        Said {
            file: None,
            generate: None,
            workers: None,
            turns: None,
            trace: None,
            replay: None,
        }
    }

    /// What is said of an option.
    fn value(&self, setting: Setting) -> Option<&'a [u8]> {
        match setting {
            Setting::Generate => self.generate,
            Setting::Workers => self.workers,
            Setting::Turns => self.turns,
            Setting::Trace => self.trace,
            Setting::Replay => self.replay,
        }
    }

    /// Takes the value of an option, which may have none yet.
    fn give(&mut self, setting: Setting, value: &'a [u8]) -> Result<(), Mistake<'a>> {
        if self.value(setting).is_some() {
            return Err(Mistake::Repeated(setting));
        }
        match setting {
            Setting::Generate => self.generate = Some(value),
            Setting::Workers => self.workers = Some(value),
            Setting::Turns => self.turns = Some(value),
            Setting::Trace => self.trace = Some(value),
            Setting::Replay => self.replay = Some(value),
        }
        Ok(())
    }

    /// Takes a file, the only one.
    fn name(&mut self, file: &'a [u8]) -> Result<(), Mistake<'a>> {
        if self.file.is_some() {
            return Err(Mistake::OneTooMany(file));
        }
        self.file = Some(file);
        Ok(())
    }

    /// Takes an option, with its value if it has one behind `=`.
    fn option(&mut self, word: &'a [u8]) -> Result<Next, Mistake<'a>> {
        let (name, value) = split_value(word);
        match (Setting::of(name), value) {
            (Some(setting), Some(value)) => {
                self.give(setting, value)?;
                Ok(Next::Any)
            }
            (Some(setting), None) => Ok(Next::Value(setting)),
            (None, _) if asks_for_help(word) => Err(Mistake::Help(word)),
            (None, _) => Err(Mistake::Unknown(name)),
        }
    }

    /// Takes a word.
    fn take(&mut self, next: Next, word: &'a [u8]) -> Result<Next, Mistake<'a>> {
        let is_dashed = word.first() == Some(&b'-');
        match next {
            Next::Value(setting) if is_dashed => return Err(Mistake::Lacks(setting)),
            Next::Value(setting) => self.give(setting, word)?,
            Next::Any if is_word(word, b"--") => return Ok(Next::File),
            Next::Any if is_dashed => return self.option(word),
            Next::Any => self.name(word)?,
            Next::File => {
                self.name(word)?;
                return Ok(Next::File);
            }
        }
        Ok(Next::Any)
    }
}

/// What stands before the first `=` of a word, and what stands behind it.
fn split_value(word: &[u8]) -> (&[u8], Option<&[u8]>) {
    for i in 0..word.len() {
        if word[i] == b'=' {
            return (&word[..i], Some(&word[i + 1..]));
        }
    }
    (word, None)
}

/// Whether a word asks other programs for help, or for their version.
fn asks_for_help(word: &[u8]) -> bool {
    is_word(word, b"-h")
        || is_word(word, b"--help")
        || is_word(word, b"-V")
        || is_word(word, b"--version")
}

/// Whether a word can be part of a command.
fn is_text(word: &[u8]) -> bool {
    !word.is_empty() && word.is_ascii() && !is_word(word, b"-")
}

/// What the words say, or the first mistake of one of them.
fn read_said<'a>(words: &'a [Line]) -> Result<Said<'a>, Mistake<'a>> {
    for word in words {
        if !is_text(word.bytes()) {
            return Err(Mistake::NoText(word.bytes()));
        }
    }
    let mut said = Said::nothing();
    let mut next = Next::Any;
    for word in words {
        next = said.take(next, word.bytes())?;
    }
    match next {
        Next::Value(setting) => Err(Mistake::Lacks(setting)),
        _ => Ok(said),
    }
}

/// The mistake of a file's name.
fn check_name(name: &[u8]) -> Result<(), Mistake<'_>> {
    if is_file_name(name) {
        Ok(())
    } else if name.contains(&b'/') {
        Err(Mistake::Path(name))
    } else {
        Err(Mistake::NoFileName(name))
    }
}

/// The mistake of a number.
fn check_number<'a>(setting: Setting, value: Option<&'a [u8]>) -> Result<(), Mistake<'a>> {
    let Some(word) = value else {
        return Ok(());
    };
    let (most, _) = setting.most();
    match count_place(word) {
        Ok(n) if word.len() <= 10 && n >= 1 && n <= most => Ok(()),
        _ => Err(Mistake::NoNumber(setting, word)),
    }
}

/// The mistake of an option's file, which is neither of two others.
fn check_file<'a>(
    setting: Setting,
    value: Option<&'a [u8]>,
    file: &[u8],
    other: Option<&[u8]>,
) -> Result<(), Mistake<'a>> {
    let Some(name) = value else {
        return Ok(());
    };
    check_name(name)?;
    let is_other = match other {
        Some(other) => is_word(name, other),
        None => false,
    };
    if is_other || is_word(name, file) {
        return Err(Mistake::SameFile(setting, name));
    }
    Ok(())
}

/// The blueprint's file, or the mistake of what is said of it.
fn file_in<'a>(said: &Said<'a>) -> Result<&'a [u8], Mistake<'a>> {
    match (said.file, said.generate) {
        (Some(file), Some(_)) => Err(Mistake::BesideGenerate(file)),
        (Some(file), None) => {
            check_name(file)?;
            Ok(file)
        }
        (None, Some(_)) => Ok(b"gen.blue"),
        (None, None) => Err(Mistake::NoInput),
    }
}

/// The first mistake of what is said.
fn check_said<'a>(said: &Said<'a>) -> Result<(), Mistake<'a>> {
    let file = file_in(said)?;
    check_number(Setting::Generate, said.generate)?;
    check_number(Setting::Workers, said.workers)?;
    check_number(Setting::Turns, said.turns)?;
    check_file(Setting::Trace, said.trace, file, None)?;
    if said.replay.is_none() {
        return Ok(());
    }
    check_file(Setting::Replay, said.replay, file, said.trace)?;
    if said.generate.is_some() {
        return Err(Mistake::BesideReplay(Setting::Generate));
    }
    if said.workers.is_some() {
        return Err(Mistake::BesideReplay(Setting::Workers));
    }
    Ok(())
}

/// The first mistake of words.
fn mistake_in(words: &[Line]) -> Mistake<'_> {
    let said = match read_said(words) {
        Ok(said) => said,
        Err(mistake) => return mistake,
    };
    match check_said(&said) {
        Ok(()) => Mistake::Other,
        Err(mistake) => mistake,
    }
}

/// Appends a word between backquotes.
fn put_word(out: &mut Vec<u8>, word: &[u8]) -> Result<(), NoMemory> {
    out.push(b'`')?;
    put_shown(out, word)?;
    out.push(b'`')?;
    Ok(())
}

/// Appends an option and its value between backquotes.
fn put_value(out: &mut Vec<u8>, setting: Setting, value: &[u8]) -> Result<(), NoMemory> {
    out.push(b'`')?;
    out.extend_from_slice(setting.word())?;
    out.push(b' ')?;
    put_shown(out, value)?;
    out.push(b'`')?;
    Ok(())
}

/// Appends what is wrong with an option.
fn put_setting(out: &mut Vec<u8>, setting: Setting, wrong: &[u8]) -> Result<(), NoMemory> {
    put_word(out, setting.word())?;
    out.extend_from_slice(wrong)
}

/// Appends what is wrong with a word that is not the value of an option.
fn put_wrong_word(out: &mut Vec<u8>, word: &[u8], wrong: &[u8]) -> Result<(), NoMemory> {
    put_word(out, word)?;
    out.extend_from_slice(wrong)
}

/// Appends what is wrong with the number of an option.
fn put_wrong_number(out: &mut Vec<u8>, setting: Setting, value: &[u8]) -> Result<(), NoMemory> {
    put_value(out, setting, value)?;
    let (_, most) = setting.most();
    out.extend_from_slice(b": a number from 1 to ")?;
    out.extend_from_slice(most)?;
    out.extend_from_slice(b" is wanted")
}

/// Appends a mistake.
fn put_mistake(out: &mut Vec<u8>, mistake: Mistake<'_>) -> Result<(), NoMemory> {
    match mistake {
        Mistake::NoText(word) => put_wrong_word(
            out,
            word,
            b": a word has at least one byte, is ASCII, and is not `-`",
        ),
        Mistake::Help(word) => put_wrong_word(out, word, b" is no option; these are all:"),
        Mistake::Unknown(word) => put_wrong_word(out, word, b" is no option"),
        Mistake::Lacks(setting) => put_setting(out, setting, b" lacks its value"),
        Mistake::Repeated(setting) => put_setting(out, setting, b" is given twice"),
        Mistake::NoInput => out.extend_from_slice(b"no blueprint is given"),
        Mistake::OneTooMany(word) => put_wrong_word(
            out,
            word,
            b" is one word too many: a command runs one blueprint",
        ),
        Mistake::BesideGenerate(word) => put_wrong_word(
            out,
            word,
            b" is one word too many: `--gen` makes its own blueprint",
        ),
        Mistake::Path(word) => put_wrong_word(
            out,
            word,
            b": a file name has no `/`; go to its folder, or link the file into this one with `ln -s`",
        ),
        Mistake::NoFileName(word) => put_wrong_word(
            out,
            word,
            b" is no file name: a letter or a digit, and up to 63 letters, digits, `.`, `_` and `-`",
        ),
        Mistake::NoNumber(setting, value) => put_wrong_number(out, setting, value),
        Mistake::SameFile(setting, name) => {
            put_value(out, setting, name)?;
            out.extend_from_slice(b": that file is named already")
        }
        Mistake::BesideReplay(setting) => {
            put_setting(out, setting, b" does not go with `--replay`")
        }
        Mistake::Other => out.extend_from_slice(b"these words are no command"),
    }
}

/// Returns what is said of words that are no command: which word is at fault and why, and all options.
pub(crate) fn usage_note(alloc: Global, words: &[Line]) -> Result<Vec<u8>, NoMemory> {
    let mut out = Vec::new(alloc);
    out.extend_from_slice(b"streams: ")?;
    put_mistake(&mut out, mistake_in(words))?;
    out.push(b'\n')?;
    out.extend_from_slice(OPTIONS)?;
    Ok(out)
}
