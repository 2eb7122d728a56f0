//! What can come at an error, in words.

use graphql_standard::{ExpectedSet, Terminal};
use std::alloc::{AllocError, Global};

/// A group of terminals that has one word.
struct Group {
    /// The word.
    word: &'static str,
    /// The group can come if all of these can.
    required: &'static [Terminal],
    /// These belong to the group. So do all names, if a name is required.
    members: &'static [Terminal],
}

/// The groups. An earlier one has its terminals first.
static GROUPS: [Group; 7] = [
    Group {
        word: "a value",
        required: &[Terminal::IntValue],
        members: &[
            Terminal::IntValue,
            Terminal::FloatValue,
            Terminal::StringValue,
            Terminal::BlockString,
            Terminal::Dollar,
            Terminal::OpenBracket,
            Terminal::OpenBrace,
            Terminal::OtherName,
        ],
    },
    Group {
        word: "a selection",
        required: &[Terminal::Spread],
        members: &[Terminal::Spread, Terminal::OtherName],
    },
    Group {
        word: "a type",
        required: &[Terminal::OtherName, Terminal::OpenBracket],
        members: &[Terminal::OtherName, Terminal::OpenBracket],
    },
    Group {
        word: "a name",
        required: &[Terminal::OtherName],
        members: &[Terminal::OtherName],
    },
    Group {
        word: "a definition",
        required: &[Terminal::Fragment, Terminal::Scalar, Terminal::Query],
        members: &[
            Terminal::Query,
            Terminal::Mutation,
            Terminal::Subscription,
            Terminal::Fragment,
            Terminal::Schema,
            Terminal::Extend,
            Terminal::Scalar,
            Terminal::Type,
            Terminal::Interface,
            Terminal::Union,
            Terminal::Enum,
            Terminal::Input,
            Terminal::Directive,
            Terminal::StringValue,
            Terminal::BlockString,
            Terminal::OpenBrace,
        ],
    },
    Group {
        word: "a description",
        required: &[Terminal::StringValue],
        members: &[Terminal::StringValue, Terminal::BlockString],
    },
    Group {
        word: "a type definition",
        required: &[Terminal::Scalar, Terminal::Type, Terminal::Interface],
        members: &[
            Terminal::Scalar,
            Terminal::Type,
            Terminal::Interface,
            Terminal::Union,
            Terminal::Enum,
            Terminal::Input,
        ],
    },
];

impl Group {
    /// Whether a terminal belongs to the group.
    fn has(&self, terminal: Terminal) -> bool {
        self.members.contains(&terminal)
            || (terminal.is_name() && self.members.contains(&Terminal::OtherName))
    }
}

/// Returns in words what can come at an error: a word for each group of terminals that can all come, for each terminal
/// that is left, and for the end of the input. The only error is out of memory.
pub fn expected_words(
    alloc: Global,
    expected: &ExpectedSet,
) -> Result<Vec<&'static str>, AllocError> {
    let mut words = Vec::new(alloc);
    let mut left = Vec::new(alloc);
    for terminal in Terminal::ALL {
        if expected.contains(terminal) {
            left.push(terminal)?;
        }
    }
    for group in &GROUPS {
        if group
            .required
            .iter()
            .all(|terminal| left.contains(terminal))
        {
            words.push(group.word)?;
            left.retain(|terminal| !group.has(*terminal));
        }
    }
    for terminal in &left {
        words.push(word_of(*terminal))?;
    }
    if expected.contains_end() {
        words.push("the end of the input")?;
    }
    Ok(words)
}

/// The word of a terminal.
fn word_of(terminal: Terminal) -> &'static str {
    match terminal {
        Terminal::DirectiveLocation => "a directive location",
        Terminal::OtherName => "a name",
        Terminal::IntValue => "an integer",
        Terminal::FloatValue => "a float",
        Terminal::StringValue => "a string",
        Terminal::BlockString => "a block string",
        _ if terminal.is_name() => word_of_keyword(terminal),
        _ => word_of_punctuator(terminal),
    }
}

/// The keyword of a terminal. `None` if the terminal is no keyword.
pub fn keyword_of(terminal: Terminal) -> Option<&'static str> {
    if terminal.is_name() {
        word_of(terminal).strip_prefix('`')?.strip_suffix('`')
    } else {
        None
    }
}

/// The word of a keyword.
fn word_of_keyword(terminal: Terminal) -> &'static str {
    match terminal {
        Terminal::Query => "`query`",
        Terminal::Mutation => "`mutation`",
        Terminal::Subscription => "`subscription`",
        Terminal::Fragment => "`fragment`",
        Terminal::On => "`on`",
        Terminal::True => "`true`",
        Terminal::False => "`false`",
        Terminal::Null => "`null`",
        Terminal::Schema => "`schema`",
        Terminal::Extend => "`extend`",
        Terminal::Scalar => "`scalar`",
        Terminal::Type => "`type`",
        Terminal::Interface => "`interface`",
        Terminal::Union => "`union`",
        Terminal::Enum => "`enum`",
        Terminal::Input => "`input`",
        Terminal::Directive => "`directive`",
        Terminal::Implements => "`implements`",
        _ => "`repeatable`",
    }
}

/// The word of a punctuator.
fn word_of_punctuator(terminal: Terminal) -> &'static str {
    match terminal {
        Terminal::Bang => "`!`",
        Terminal::Dollar => "`$`",
        Terminal::Ampersand => "`&`",
        Terminal::OpenParen => "`(`",
        Terminal::CloseParen => "`)`",
        Terminal::Spread => "`...`",
        Terminal::Colon => "`:`",
        Terminal::Equals => "`=`",
        Terminal::At => "`@`",
        Terminal::OpenBracket => "`[`",
        Terminal::CloseBracket => "`]`",
        Terminal::OpenBrace => "`{`",
        Terminal::Pipe => "`|`",
        _ => "`}`",
    }
}
