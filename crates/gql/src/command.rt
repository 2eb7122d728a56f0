//! The arguments of the program.
ghost use Rattle.std.specs.Prelude.{◌≡◌, ◌↔◌, Some, map, string_bytes};
ghost use Rattle.std.specs.List.{list_all};
ghost use Rattle.std.specs.Char.{is_ascii_digit};
ghost use Rattle.graphql_core.specs.{StyleOptions};
ghost use Rattle.gql.specs.{is_indent, is_multiline, number_of, style_said, styled_command, SaysStyle, Means};

use graphql_parser::Style;

/// How the program is called.
pub const USAGE: &str = "usage: gql query|schema|minify|first [--indent N] [--multiline]";

/// What the program does with its input.
#[derive(Clone, Copy, Debug, PartialEq, Eq)]
pub enum Command {
    /// Formats a query document.
    Query,
    /// Formats a schema document.
    Schema,
    /// Writes the tokens, with a space only between two that are not punctuators, and between a number and `...`.
    Minify,
    /// Formats the first definition of a query document, and writes the rest of the input unchanged.
    First,
}

/// The style with these settings, and the default indentation if there is no `indent`.
fn style_said(indent: Option<u32>, multiline: bool) -> Style
    ensures { result ≡ style_said indent multiline }
{
    let mut style = Style::default();
    if let Some(spaces) = indent {
        style.indent(spaces);
    }
    style.multiline_arguments(multiline);
    style
}

/// Whether a word has only ASCII digits.
fn has_only_digits(word: &str) -> bool
    ensures { result ≡ list_all is_ascii_digit word.now }
{
    word.bytes().all(|byte| byte.is_ascii_digit())
}

/// The number that one to ten ASCII digits denote, if it fits a `u32`; `None` for any other word.
fn number_of(word: &str) -> Option<u32>
    ensures { result ≡ number_of word.now }
{
    if word.len() > 10 || !has_only_digits(word) {
        return None;
    }
    match word.parse::<u32>() {
        Ok(number) => Some(number),
        Err(_) => None,
    }
}

fn is_indent(word: &str) -> bool
    ensures { result ≡ is_indent word.now }
{
    word == "--indent"
}

fn is_multiline(word: &str) -> bool
    ensures { result ≡ is_multiline word.now }
{
    word == "--multiline"
}

/// The style with these options, each at most once and in any order; `None` if an option is invalid.
fn style_of(options: &[String]) -> Option<Style>
    ensures { (style : StyleOptions) → result ≡ Some style ↔ SaysStyle (map string_bytes options.now) style }
{
    let mut indent = None;
    let mut multiline = false;
    let mut rest = options;
    'options: while let Some((option, others)) = rest.split_first() {
        if is_multiline(option.as_str()) && !multiline {
            multiline = true;
            rest = others;
        } else if is_indent(option.as_str()) && indent.is_none() {
            let (number, others) = others.split_first()?;
            indent = Some(number_of(number.as_str())?);
            rest = others;
        } else {
            return None;
        }
    }
    Some(style_said(indent, multiline))
}

/// The command of this name, if it takes options.
fn styled_command(word: &str) -> Option<Command>
    ensures { result ≡ styled_command word.now }
{
    if word == "query" {
        Some(Command::Query)
    } else if word == "schema" {
        Some(Command::Schema)
    } else if word == "first" {
        Some(Command::First)
    } else {
        None
    }
}

/// The command and the style from the arguments after the program's name; `None` if the arguments are invalid.
pub fn read_words(words: Vec<String>) -> Option<(Command, Style)>
    ensures { (said : Command × StyleOptions) → result ≡ Some said ↔ Means (map string_bytes words.items) said }
{
    match words.as_slice() {
        [word] if word.as_str() == "minify" => Some((Command::Minify, Style::default())),
        [word, options @ ..] => {
            let command = styled_command(word.as_str())?;
            let style = style_of(options)?;
            Some((command, style))
        }
        _ => None,
    }
}
