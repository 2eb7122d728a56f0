//! The arguments of the program.

use crate::words::unreadable;
use clap::error::ErrorKind;
use clap::{Arg, ArgAction, ArgGroup, ArgMatches, Command, Error, value_parser};
use graphql_fmt::FormatOptions;
use std::alloc::{AllocError, Global};

/// The name of standard input in messages, unless the arguments give another name.
const STANDARD_INPUT: &str = "<stdin>";

/// The names of the languages. The option `--language` is read, and changes nothing.
static LANGUAGES: [&str; 2] = ["query", "schema"];

/// The names of the formats of messages.
static MESSAGE_FORMATS: [&str; 3] = ["long", "short", "json"];

/// The last lines of the help.
const AFTER_HELP: &str = "\
Without --check, --write or --diff, the formatted texts go to standard output.

A folder stands for the files below it whose names end in .graphql, .graphqls or .gql.
Hidden files and folders, node_modules, and symbolic links in a folder are left out.

Status: 0 if all went well; 1 if an input is rejected, or would change under --check or --diff;
2 if the arguments are invalid, or an input cannot be read or written.";

/// What the program does with each input.
#[derive(Clone, Copy, Debug, PartialEq, Eq)]
pub enum Task {
    /// Writes the formatted text to standard output.
    Print,
    /// Names the input if formatting would change it.
    Check,
    /// Rewrites the file if formatting changes it.
    Write,
    /// Writes a unified diff to standard output if formatting would change the input.
    Diff,
}

/// What the message about an input that is rejected has.
#[derive(Clone, Copy, Debug, PartialEq, Eq)]
pub enum MessageFormat {
    /// The place and what is wrong, and below them the line of the source with carets under the error.
    Long,
    /// The place and what is wrong, in one line.
    Short,
    /// A JSON object in one line.
    Json,
}

/// How inputs that are rejected are reported.
#[derive(Clone, Copy, Debug, PartialEq, Eq)]
pub struct MessageOptions {
    /// The format of messages.
    pub format: MessageFormat,
    /// How many errors of an input are shown. The first one always is.
    pub max_errors: usize,
}

impl MessageOptions {
    /// The options of the program without arguments.
    pub const DEFAULT: MessageOptions = MessageOptions {
        format: MessageFormat::Long,
        max_errors: 20,
    };
}

/// Where the inputs are.
#[derive(Debug, Drop)]
pub enum Inputs {
    /// Standard input, with its name in messages.
    Standard(String),
    /// These files and folders.
    Paths(Vec<String>),
}

/// What the arguments ask for.
#[derive(Debug, Drop)]
pub struct Request {
    /// What is done with each input.
    pub task: Task,
    /// How the inputs are formatted.
    pub options: FormatOptions,
    /// How inputs that are rejected are reported.
    pub messages: MessageOptions,
    /// Where the inputs are.
    pub inputs: Inputs,
}

/// An option without a value.
fn flag<'a>(alloc: Global, name: &'a str, help: &'a str) -> Arg<'a> {
    Arg::new(alloc, name)
        .long(name)
        .action(ArgAction::SetTrue)
        .help(help)
}

/// An option with a value.
fn option<'a>(alloc: Global, name: &'a str, value: &'a str, help: &'a str) -> Arg<'a> {
    Arg::new(alloc, name)
        .long(name)
        .value_name(value)
        .action(ArgAction::Set)
        .help(help)
}

/// The files and folders.
fn paths<'a>(alloc: Global) -> Arg<'a> {
    Arg::new(alloc, "path")
        .value_name("PATH")
        .num_args(0..)
        .action(ArgAction::Append)
        .help("Files and folders; standard input without a PATH, or with the PATH '-'")
}

/// The options for how the inputs are formatted.
fn with_format_options(alloc: Global, command: Command<'_>) -> Result<Command<'_>, AllocError> {
    let indent = option(alloc, "indent", "N", "Spaces for each level").default_value("2");
    let width = option(alloc, "width", "N", "Columns that a line can take").default_value("80");
    let language = option(
        alloc,
        "language",
        "LANGUAGE",
        "Changes nothing: an input can have operations and types",
    );
    command
        .arg(indent.value_parser(value_parser!(u16)))?
        .arg(width.value_parser(value_parser!(u32)))?
        .arg(language.value_parser(LANGUAGES.as_slice()))
}

/// The options for messages.
fn with_message_options(alloc: Global, command: Command<'_>) -> Result<Command<'_>, AllocError> {
    let stdin_path = option(
        alloc,
        "stdin-path",
        "NAME",
        "Name of standard input in messages",
    );
    let format = option(
        alloc,
        "message-format",
        "FORMAT",
        "How much a message about an input that is rejected has",
    )
    .default_value("long");
    let max_errors = option(
        alloc,
        "max-errors",
        "N",
        "Errors shown for each input; 0 for all",
    );
    command
        .arg(stdin_path)?
        .arg(format.value_parser(MESSAGE_FORMATS.as_slice()))?
        .arg(
            max_errors
                .default_value("20")
                .value_parser(value_parser!(u32)),
        )
}

/// The program's command line.
fn command_line<'a>(alloc: Global) -> Result<Command<'a>, AllocError> {
    let check = "Names the inputs that would change, and changes none";
    let write = "Rewrites the files that change";
    let diff = "Shows what would change as a unified diff, and changes no file";
    let tasks = ArgGroup::new(alloc, "task")
        .arg("check")?
        .arg("write")?
        .arg("diff")?;
    let command = Command::new(alloc, "gqlfmt")
        .version("0.1.0")
        .about("Formats GraphQL files, and keeps their comments")
        .after_help(AFTER_HELP)
        .arg(flag(alloc, "check", check))?
        .arg(flag(alloc, "write", write))?
        .arg(flag(alloc, "diff", diff))?
        .group(tasks)?
        .arg(paths(alloc))?;
    with_message_options(alloc, with_format_options(alloc, command)?)
}

/// The task that the options name.
fn task_of(matches: &ArgMatches<'_>) -> Task {
    if matches.get_flag("check") {
        Task::Check
    } else if matches.get_flag("write") {
        Task::Write
    } else if matches.get_flag("diff") {
        Task::Diff
    } else {
        Task::Print
    }
}

/// How the inputs are formatted.
fn format_options(matches: &ArgMatches<'_>) -> FormatOptions {
    let standard = FormatOptions::DEFAULT;
    let indent = matches.get_one::<u16>("indent");
    let width = matches.get_one::<u32>("width");
    FormatOptions {
        indent: indent.map_or(standard.indent, |indent| indent as usize),
        width: width.map_or(standard.width, |width| width as usize),
    }
}

/// How inputs that are rejected are reported, by the options.
fn message_options(matches: &ArgMatches<'_>) -> MessageOptions {
    let standard = MessageOptions::DEFAULT;
    MessageOptions {
        format: match matches.get_str("message-format") {
            Some("short") => MessageFormat::Short,
            Some("json") => MessageFormat::Json,
            _ => MessageFormat::Long,
        },
        max_errors: match matches.get_one::<u32>("max-errors") {
            Some(0) => usize::MAX,
            Some(most) => most as usize,
            None => standard.max_errors,
        },
    }
}

/// Whether these paths stand for standard input.
fn is_standard_input(paths: &[&str]) -> bool {
    match paths {
        [] => true,
        [path] => *path == "-",
        _ => false,
    }
}

/// What is wrong with arguments that are valid one by one.
fn contradiction(task: Task, paths: &[&str], stdin_path: Option<&str>) -> Option<&'static str> {
    if is_standard_input(paths) {
        (task == Task::Write).then_some(
            "standard input cannot be rewritten: '--write' needs a PATH",
        )
    } else if paths.contains(&"-") {
        Some("standard input cannot be combined with other inputs: '-' must be the only PATH")
    } else if stdin_path.is_some() {
        Some("'--stdin-path' can only be used with standard input")
    } else {
        None
    }
}

/// Where the inputs are.
fn inputs_of(
    alloc: Global,
    paths: &[&str],
    stdin_path: Option<&str>,
) -> Result<Inputs, AllocError> {
    if is_standard_input(paths) {
        let name = stdin_path.unwrap_or(STANDARD_INPUT);
        let name = unreadable(name).unwrap_or(name);
        return Ok(Inputs::Standard(String::from_str(alloc, name)?));
    }
    let paths = paths.iter().map(|path| -> Result<String, AllocError> {
        String::from_str(alloc, path)
    });
    Ok(Inputs::Paths(paths.try_collect(alloc)?))
}

/// Reads the arguments, of which the first is the program's name. The error is also help or the version, if the
/// arguments ask for it.
pub fn read_arguments(alloc: Global, words: &[String]) -> Result<Request, Error> {
    let mut command = command_line(alloc)?;
    let matches = command.try_get_matches_from_mut(words)?;
    let task = task_of(&matches);
    let paths = matches.get_strs("path").unwrap_or(&[]);
    let stdin_path = matches.get_str("stdin-path");
    if let Some(message) = contradiction(task, paths, stdin_path) {
        return Err(command.error(ErrorKind::ArgumentConflict, message)?);
    }
    Ok(Request {
        task,
        options: format_options(&matches),
        messages: message_options(&matches),
        inputs: inputs_of(alloc, paths, stdin_path)?,
    })
}
