// What is said of words that ask for nothing, by `clap`: help, or what is wrong with them.
use crate::task::TaskEnd;
use clap::error::ErrorKind;
use clap::{Arg, ArgAction, Command, Error};
use elem_core::line::Line;
use std::alloc::{AllocError, Global};

/// What is said of words that clap takes and the grammar does not.
const NO_PLACE: &str =
    "FILE is the name of a file in this folder (a letter or a digit, and letters, digits, `.`, `_` and `-`), N a number, and ROW a source, stages and a sink with `|` between them";

/// What `--version` says behind the commit. The kit's line is that of `README.md`, which `tools/versions_agree` compares.
const VERSION: &str =
    "for texts of `streams 1` and `streams 2`\nThe sources of this version are proved with rattle-kit-13f logic dac8208d650f15bf; docs/PROVED.md says what is proved of them.\n`make blueprint` builds what it has proved. `make quick` builds the same sources without their proof.";

/// A command on one file.
fn command<'a>(alloc: Global, name: &'a str, about: &'a str) -> Result<Command<'a>, AllocError> {
    let file = Arg::new(alloc, "FILE")
        .required(true)
        .help("The blueprint's file");
    Command::new(alloc, name).about(about).arg(file)
}

/// The command that tells faults.
fn check<'a>(alloc: Global) -> Result<Command<'a>, AllocError> {
    let files = Arg::new(alloc, "files")
        .long("files")
        .action(ArgAction::SetTrue)
        .help("Looks too whether the files of the sources can be opened");
    command(alloc, "check", "Tells the first fault, or nothing")?.arg(files)
}

/// The command that counts units.
fn turns<'a>(alloc: Global) -> Result<Command<'a>, AllocError> {
    let counts = Arg::new(alloc, "N")
        .action(ArgAction::Append)
        .num_args(0..)
        .help("How many elements each source gives, in the order of sources");
    command(
        alloc,
        "turns",
        "Counts the units that suffice, for --turns of streams",
    )?
    .arg(counts)
}

/// The command that prints the blueprint of a row.
fn row<'a>(alloc: Global) -> Result<Command<'a>, AllocError> {
    let row = Arg::new(alloc, "ROW").required(true).help(
        "A source, stages and a sink with `|` between them, as one word",
    );
    Command::new(alloc, "row")
        .about("Prints the blueprint of a row")
        .arg(row)
}

/// What `--version` says behind the program's name.
fn version_of(alloc: Global, commit: &str) -> Result<String, AllocError> {
    format!(in alloc; "0.1, commit {commit}, {VERSION}")
}

/// The workbench of that version as clap is told of it.
fn workbench<'a>(alloc: Global, version: &'a str) -> Result<Command<'a>, AllocError> {
    Command::new(alloc, "blueprint")
        .bin_name("blueprint")?
        .no_binary_name(true)
        .about("Looks at the blueprints that streams runs")
        .version(version)
        .subcommand_required(true)
        .subcommand(check(alloc)?)?
        .subcommand(command(alloc, "fmt", "Prints the canonical text")?)?
        .subcommand(command(
            alloc,
            "draw",
            "Prints the graph in the DOT language, with a run where its report is on standard input",
        )?)?
        .subcommand(command(
            alloc,
            "explain",
            "Says a report of streams, read from standard input, in words",
        )?)?
        .subcommand(turns(alloc)?)?
        .subcommand(row(alloc)?)
}

/// The texts of the words; None where one is no text.
fn texts_of(alloc: Global, words: &[Line]) -> Result<Option<Vec<&str>>, AllocError> {
    let mut texts = Vec::new(alloc);
    for word in words {
        match std::str::from_utf8(word.bytes()) {
            Ok(text) => texts.push(text)?,
            Err(_) => return Ok(None),
        }
    }
    Ok(Some(texts))
}

/// What clap says of texts.
fn said<'a>(alloc: Global, texts: &'a [&'a str], version: &'a str) -> Result<Error, AllocError> {
    match workbench(alloc, version)?.try_get_matches_from(texts) {
        Ok(_) => workbench(alloc, version)?.error(ErrorKind::ValueValidation, NO_PLACE),
        Err(error) => Ok(error),
    }
}

/// How a reading ends of which clap says this.
fn end_of(alloc: Global, error: &Error) -> Result<TaskEnd, AllocError> {
    let text = format!(in alloc; "{error}")?;
    match error.kind() {
        ErrorKind::OutOfMemory => Ok(TaskEnd::NoMemory),
        ErrorKind::DisplayHelp | ErrorKind::DisplayVersion => Ok(TaskEnd::Help(text)),
        _ => Ok(TaskEnd::Usage(text)),
    }
}

/// The same of words.
fn said_of_words(alloc: Global, words: &[Line], commit: &str) -> Result<TaskEnd, AllocError> {
    let version = version_of(alloc, commit)?;
    match texts_of(alloc, words)? {
        Some(texts) => end_of(alloc, &said(alloc, &texts, &version)?),
        None => end_of(
            alloc,
            &workbench(alloc, &version)?.error(ErrorKind::InvalidValue, NO_PLACE)?,
        ),
    }
}

/// How a reading of such words ends: with help where they ask for it, else with what is wrong.
pub(crate) fn no_task(alloc: Global, words: &[Line], commit: &str) -> TaskEnd {
    match said_of_words(alloc, words, commit) {
        Ok(end) => end,
        Err(_) => TaskEnd::NoMemory,
    }
}
