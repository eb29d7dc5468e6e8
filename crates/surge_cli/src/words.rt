//! The words of the command line, read by `clap`.

ghost use Rattle.std.specs.Prelude.{◌≡◌, is_some, map, option_map, string_bytes, IfOk};
ghost use Rattle.std.specs.Char.{is_ascii_digit};
ghost use Rattle.std.specs.List.{list_all};
ghost use Rattle.clap.specs.Words.{app_of, first_of, found_of, rows_of};
ghost use Rattle.surge_cli.specs.Words.{command, matched, number_of, file_of, source_of, mode_named, mode_of, turns_of, joined, request_from, task_of, asked_of, line_of, is_accompanied, replay_of, line_from, command_line};

use clap::error::ErrorKind;
use clap::{Arg, ArgMatches, Command};
use result_tables::Form;
use std::alloc::Global;
use surge_outside::{NoMemory, Text};

/// What is run.
#[derive(Debug, Drop)]
pub(crate) enum Source {
    /// The script in the file of this name, which is not empty, over the data files that it names.
    Script(Text),
    /// The sample of this number.
    Sample(u64),
}

/// How much of a script is done.
#[derive(Clone, Copy, Debug, PartialEq, Eq)]
pub(crate) enum Mode {
    /// It is run, and each table is written.
    Run,
    /// It is checked, and its text is written.
    Check,
    /// It is run, and a line for each table is written.
    Summary,
    /// It is run, and its tables are written as a change text.
    Changes,
}

/// What the words of the command line ask for.
#[derive(Debug, Drop)]
pub(crate) struct Request {
    pub(crate) source: Source,
    pub(crate) mode: Mode,
    /// Where the order of turns is drawn, the number from which it is drawn.
    pub(crate) turns: Option<u64>,
}

/// What is done of a script.
#[derive(Clone, Copy, Debug, PartialEq, Eq)]
pub(crate) enum Task {
    /// Its runs are made, and their tables are written in this form. Where the order of turns is drawn, it is drawn from this
    /// number on.
    Run(Form, Option<u64>),
    /// It is checked, and its canonical text is written.
    Check,
}

/// A script, and what is done of it.
#[derive(Debug, Drop)]
pub(crate) struct Asked {
    pub(crate) source: Source,
    pub(crate) task: Task,
}

/// What the words of the command line come to.
#[derive(Debug, Drop)]
pub(crate) enum CommandLine {
    /// They are not of the form.
    NotOfForm,
    /// They ask for a script.
    Asked(Asked),
    /// They ask for the tables of the change text in the file of this name, which is not empty.
    Replay(Text),
}

/// A number has at most so many digits, leading zeros among them.
const MOST_DIGITS: usize = 20;

// Five options that each take one text, without flags for help and for the version.
fn command<'a>(alloc: Global) -> Result<Command<'a>, NoMemory>
    ensures { IfOk result (λ c. app_of c ≡ command) }
{
    Ok(
        Command::new(alloc, "surge")
            .disable_help_flag(true)
            .disable_version_flag(true)
            .arg(Arg::new(alloc, "script").long("script"))?
            .arg(Arg::new(alloc, "sample").long("sample"))?
            .arg(Arg::new(alloc, "replay").long("replay"))?
            .arg(Arg::new(alloc, "mode").long("mode"))?
            .arg(Arg::new(alloc, "turns").long("turns"))?,
    )
}

// The options that were given, or none where the words are not of the command.
fn matches<'a>(alloc: Global, words: &'a [String]) -> Result<Option<ArgMatches<'a>>, NoMemory>
    ensures { IfOk result (λ m. option_map (λ m. rows_of (found_of m)) m ≡ matched (map string_bytes words.now)) }
{
    match command(alloc)?.try_get_matches_from(words) {
        Ok(matches) => Ok(Some(matches)),
        Err(error) => match error.kind() {
            ErrorKind::OutOfMemory => Err(NoMemory),
            _ => Ok(None),
        },
    }
}

fn is_digits(text: &str) -> bool
    ensures { result ≡ list_all is_ascii_digit text.now }
{
    text.as_bytes().iter().all(|byte| byte.is_ascii_digit())
}

// The number that 1 to 20 decimal digits write, where it is below 2^64.
fn number_of(text: &str) -> Option<u64>
    ensures { result ≡ number_of text.now }
{
    if text.len() > MOST_DIGITS || !is_digits(text) {
        return None;
    }
    text.parse::<u64>().ok()
}

fn file_of(alloc: Global, name: &str) -> Result<Option<Source>, NoMemory>
    ensures { IfOk result (λ source. source ≡ file_of name.now) }
{
    if name.is_empty() {
        return Ok(None);
    }
    let name = Text::from_string(String::from_str(alloc, name)?);
    Ok(Some(Source::Script(name)))
}

fn source_of(
    alloc: Global,
    script: Option<&str>,
    sample: Option<&str>,
) -> Result<Option<Source>, NoMemory>
    ensures { IfOk result (λ source. source ≡ source_of (option_map (λ t. t.now) script.entry) (option_map (λ t. t.now) sample.entry)) }
{
    match (script, sample) {
        (Some(name), None) => file_of(alloc, name),
        (None, Some(text)) => match number_of(text) {
            Some(number) => Ok(Some(Source::Sample(number))),
            None => Ok(None),
        },
        _ => Ok(None),
    }
}

fn mode_named(text: &str) -> Option<Mode>
    ensures { result ≡ mode_named text.now }
{
    if text == "run" {
        Some(Mode::Run)
    } else if text == "check" {
        Some(Mode::Check)
    } else if text == "summary" {
        Some(Mode::Summary)
    } else if text == "changes" {
        Some(Mode::Changes)
    } else {
        None
    }
}

fn mode_of(word: Option<&str>) -> Option<Mode>
    ensures { result ≡ mode_of (option_map (λ t. t.now) word.entry) }
{
    match word {
        Some(text) => mode_named(text),
        None => Some(Mode::Run),
    }
}

fn turns_of(word: Option<&str>) -> Option<Option<u64>>
    ensures { result ≡ turns_of (option_map (λ t. t.now) word.entry) }
{
    match word {
        Some(text) => match number_of(text) {
            Some(number) => Some(Some(number)),
            None => None,
        },
        None => Some(None),
    }
}

// What an option was given.
fn text_of<'a>(matches: &ArgMatches<'a>, option: &str) -> Option<&'a str>
    ensures { option_map (λ t. t.now) result ≡ first_of option.now (rows_of (found_of matches.now)) }
{
    matches.get_str(option)
}

fn joined(source: Option<Source>, mode: Option<Mode>, turns: Option<Option<u64>>) -> Option<Request>
    ensures { result ≡ joined source mode turns }
{
    match (source, mode, turns) {
        (Some(source), Some(mode), Some(turns)) => Some(Request {
            source,
            mode,
            turns,
        }),
        _ => None,
    }
}

fn request_from(alloc: Global, matches: &ArgMatches<'_>) -> Result<Option<Request>, NoMemory>
    ensures { IfOk result (λ request. request ≡ request_from (rows_of (found_of matches.now))) }
{
    let source = source_of(
        alloc,
        text_of(matches, "script"),
        text_of(matches, "sample"),
    )?;
    let mode = mode_of(text_of(matches, "mode"));
    let turns = turns_of(text_of(matches, "turns"));
    Ok(joined(source, mode, turns))
}

// What is done in a mode.
fn task_of(mode: Mode, turns: Option<u64>) -> Task
    ensures { result ≡ task_of mode turns }
{
    match mode {
        Mode::Run => Task::Run(Form::Tables, turns),
        Mode::Summary => Task::Run(Form::Summary, turns),
        Mode::Changes => Task::Run(Form::Changes, turns),
        Mode::Check => Task::Check,
    }
}

// The script that a request asks for, and what is done of it.
fn asked_of(request: Request) -> Asked
    ensures { result ≡ asked_of request }
{
    let Request {
        source,
        mode,
        turns,
    } = request;
    Asked {
        source,
        task: task_of(mode, turns),
    }
}

// What the options ask for of a script, where no change text is named.
fn line_of(alloc: Global, matches: &ArgMatches<'_>) -> Result<CommandLine, NoMemory>
    ensures { IfOk result (λ line. line ≡ line_of (request_from (rows_of (found_of matches.now)))) }
{
    match request_from(alloc, matches)? {
        Some(request) => Ok(CommandLine::Asked(asked_of(request))),
        None => Ok(CommandLine::NotOfForm),
    }
}

// Whether an option was given.
fn is_given(matches: &ArgMatches<'_>, option: &str) -> bool
    ensures { result ≡ is_some (first_of option.now (rows_of (found_of matches.now))) }
{
    text_of(matches, option).is_some()
}

// Whether options were given beside the change text: none may stand there.
fn is_accompanied(matches: &ArgMatches<'_>) -> bool
    ensures { result ≡ is_accompanied (rows_of (found_of matches.now)) }
{
    is_given(matches, "script")
        || is_given(matches, "sample")
        || is_given(matches, "mode")
        || is_given(matches, "turns")
}

// What the options ask for, where they name a change text.
fn replay_of(alloc: Global, name: &str, matches: &ArgMatches<'_>) -> Result<CommandLine, NoMemory>
    ensures { IfOk result (λ line. line ≡ replay_of name.now (is_accompanied (rows_of (found_of matches.now)))) }
{
    if name.is_empty() || is_accompanied(matches) {
        return Ok(CommandLine::NotOfForm);
    }
    let name = Text::from_string(String::from_str(alloc, name)?);
    Ok(CommandLine::Replay(name))
}

// What the options ask for.
fn line_from(alloc: Global, matches: &ArgMatches<'_>) -> Result<CommandLine, NoMemory>
    ensures { IfOk result (λ line. line ≡ line_from (rows_of (found_of matches.now))) }
{
    match text_of(matches, "replay") {
        Some(name) => replay_of(alloc, name, matches),
        None => line_of(alloc, matches),
    }
}

/// What the words come to. The first word is the program's name.
#[tactic(auto, unfolding(crate::specs::Words::command_line))]
pub(crate) fn command_line(alloc: Global, words: &[String]) -> Result<CommandLine, NoMemory>
    ensures { IfOk result (λ line. line ≡ command_line (map string_bytes words.now)) }
{
    match matches(alloc, words) {
        Ok(Some(matches)) => line_from(alloc, &matches),
        Ok(None) => Ok(CommandLine::NotOfForm),
        Err(NoMemory) => Err(NoMemory),
    }
}
