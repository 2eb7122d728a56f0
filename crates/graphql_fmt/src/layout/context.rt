//! The role of each token, found from the brackets around it and the tokens before it.

use crate::layout::role::{Enclosure, Role};
use crate::layout::symbol::Symbol;
use crate::pieces::Piece;
use graphql_core::helpers::Punctuator;

/// What the last token was.
#[derive(Clone, Copy, Debug, PartialEq, Eq)]
enum Last {
    /// None of those below, or there was none.
    Other,
    /// The first name of an operation or a fragment.
    Operation,
    /// A description.
    Description,
    /// The `@` of a directive.
    At,
    /// The `@` of a directive that is defined.
    DefinedAt,
    /// The name of a directive.
    Directive,
    /// `&` or `|`
    Separator,
    /// `=`
    Equals,
    /// `:`
    Colon,
    /// `$`
    Dollar,
    /// `...`
    Spread,
    /// The `on` after `...`.
    Condition,
}

/// What the next name is, outside brackets.
#[derive(Clone, Copy, Debug, PartialEq, Eq)]
enum NextName {
    /// The first name of a definition.
    Definition,
    /// A name in an operation or a fragment, before its braces.
    Executable,
    /// The name after `extend`.
    Extended,
    /// The name of a type.
    Type,
    /// The name of a directive that is defined.
    Directive,
    /// `implements`, or the first name of a definition.
    Implements,
    /// An interface.
    Interface,
    /// `repeatable` or `on`.
    On,
    /// A location of a directive.
    Location,
}

/// What the name after the first name of a definition is.
fn name_after(first: &Piece<'_>) -> NextName {
    match first.text {
        "query" | "mutation" | "subscription" | "fragment" => NextName::Executable,
        "extend" => NextName::Extended,
        "schema" => NextName::Definition,
        "directive" => NextName::Directive,
        _ => NextName::Type,
    }
}

/// The context of a token: the innermost brackets around it, and what the tokens before it are to it.
#[derive(Clone, Copy)]
pub struct Context {
    /// What the next token is in.
    pub within: Enclosure,
    last: Last,
    next_name: NextName,
    /// Whether the last definition is an operation or a fragment.
    is_executable: bool,
    /// Whether the braces of the last definition can still come.
    expects_body: bool,
}

impl Context {
    /// The context of the first token.
    pub const FIRST: Context = Context {
        within: Enclosure::Document,
        last: Last::Other,
        next_name: NextName::Definition,
        is_executable: false,
        expects_body: false,
    };

    /// Whether the next token can be the first location of a directive that is defined.
    pub fn begins_locations(&self) -> bool {
        self.next_name == NextName::Location
    }

    /// Begins a definition with its first name, or with the name after `extend`, which has this role.
    fn begin(&mut self, first: &Piece<'_>, role: Role) -> (Role, Last) {
        self.next_name = name_after(first);
        self.is_executable = self.next_name == NextName::Executable;
        self.expects_body = !matches!(first.text, "scalar" | "union" | "directive");
        let last = if self.is_executable {
            Last::Operation
        } else {
            Last::Other
        };
        (role, last)
    }

    /// Reads a name outside brackets: its role, and what it is to the next token.
    fn read_outer_name(&mut self, piece: &Piece<'_>) -> (Role, Last) {
        let (next_name, role) = match (self.last, self.next_name) {
            (Last::Separator, _) => (NextName::Definition, Role::Spaced),
            (Last::Equals, _) => (NextName::Definition, Role::Member),
            (Last::Description, _) => return self.begin(piece, Role::Described),
            (_, NextName::Extended) => return self.begin(piece, Role::Spaced),
            (_, NextName::Executable) => (NextName::Executable, Role::Spaced),
            (_, NextName::Type) => (NextName::Implements, Role::Spaced),
            (_, NextName::Implements) if piece.text == "implements" => {
                (NextName::Interface, Role::Lead)
            }
            (_, NextName::On) if piece.text == "on" => (NextName::Location, Role::Lead),
            (_, NextName::On) => (NextName::On, Role::Spaced),
            (_, NextName::Interface | NextName::Location) => {
                (NextName::Definition, Role::Member)
            }
            _ => return self.begin(piece, Role::Item),
        };
        self.next_name = next_name;
        (role, Last::Other)
    }

    /// Reads a name.
    fn read_name(&mut self, piece: &Piece<'_>) -> Role {
        let (role, last) = match self.last {
            Last::At => (Role::Tight, Last::Directive),
            Last::DefinedAt => {
                self.next_name = NextName::On;
                (Role::Tight, Last::Other)
            }
            Last::Dollar => (Role::Tight, Last::Other),
            Last::Spread if piece.text == "on" => (Role::Spaced, Last::Condition),
            Last::Spread => (Role::Tight, Last::Other),
            _ if self.within == Enclosure::Document => self.read_outer_name(piece),
            Last::Colon | Last::Equals | Last::Condition => (Role::Spaced, Last::Other),
            Last::Description => (Role::Described, Last::Other),
            _ => (Role::Item, Last::Other),
        };
        self.last = last;
        role
    }

    /// The role of the first token of a value or of a type.
    fn value_role(&self) -> Role {
        match self.last {
            Last::Colon | Last::Equals => Role::Spaced,
            Last::Description => Role::Described,
            _ => Role::Item,
        }
    }

    /// Reads the first token of a value, and leaves `last` for the next token.
    fn read_value(&mut self, last: Last) -> Role {
        let role = self.value_role();
        self.last = last;
        role
    }

    /// Reads a string.
    fn read_string(&mut self) -> Role {
        let role = self.value_role();
        self.last = if role == Role::Item && self.within != Enclosure::List {
            Last::Description
        } else {
            Last::Other
        };
        role
    }

    /// Reads `@`.
    fn read_at(&mut self) -> Role {
        if self.within == Enclosure::Document && self.next_name == NextName::Directive {
            self.last = Last::DefinedAt;
            Role::Spaced
        } else {
            self.last = Last::At;
            Role::Directive
        }
    }

    /// Reads `=`.
    fn read_equals(&mut self) -> Role {
        self.last = Last::Equals;
        if self.within == Enclosure::Document {
            Role::Lead
        } else {
            Role::Spaced
        }
    }

    /// Reads `(`.
    fn read_open_paren(&mut self) -> Role {
        let role = if self.last == Last::Operation {
            Role::Variables
        } else {
            Role::Arguments
        };
        let is_of_field = self.is_executable && self.within == Enclosure::Block;
        self.within = if is_of_field || self.last == Last::Directive {
            Enclosure::Arguments
        } else {
            Enclosure::Definitions
        };
        self.last = Last::Other;
        role
    }

    /// Reads `[`.
    fn read_open_bracket(&mut self) -> Role {
        let is_type = match self.within {
            Enclosure::Type => true,
            Enclosure::Block | Enclosure::Definitions => self.last == Last::Colon,
            _ => false,
        };
        self.within = if is_type {
            Enclosure::Type
        } else {
            Enclosure::List
        };
        self.read_value(Last::Other)
    }

    /// Reads the `{` of a block. Outside brackets it opens the body of the last definition, or begins an operation.
    fn read_block(&mut self) -> Role {
        if self.within == Enclosure::Block {
            return Role::Body;
        }
        let expects_body = self.expects_body;
        self.is_executable = self.is_executable || !expects_body;
        self.expects_body = false;
        self.next_name = NextName::Definition;
        if expects_body { Role::Body } else { Role::Item }
    }

    /// Reads `{`.
    fn read_open_brace(&mut self) -> Role {
        let is_block = matches!(self.within, Enclosure::Document | Enclosure::Block)
            && self.last != Last::Equals;
        if !is_block {
            self.within = Enclosure::Object;
            return self.read_value(Last::Other);
        }
        let role = self.read_block();
        self.within = Enclosure::Block;
        self.last = Last::Other;
        role
    }

    /// Reads a token that has this role wherever it is, and leaves `last` for the next token.
    fn read_other(&mut self, role: Role, last: Last) -> Role {
        self.last = last;
        role
    }

    /// Reads a punctuator.
    fn read_punctuator(&mut self, punctuator: Punctuator) -> Role {
        match punctuator {
            Punctuator::Dollar => self.read_value(Last::Dollar),
            Punctuator::Bang => self.read_other(Role::Tight, Last::Other),
            Punctuator::Colon => self.read_other(Role::Tight, Last::Colon),
            Punctuator::Spread => self.read_other(Role::Item, Last::Spread),
            Punctuator::Ampersand | Punctuator::Pipe => {
                self.read_other(Role::Member, Last::Separator)
            }
            Punctuator::Equals => self.read_equals(),
            Punctuator::At => self.read_at(),
            Punctuator::OpenParen => self.read_open_paren(),
            Punctuator::OpenBracket => self.read_open_bracket(),
            Punctuator::OpenBrace => self.read_open_brace(),
            Punctuator::CloseParen | Punctuator::CloseBracket | Punctuator::CloseBrace => {
                self.read_other(Role::End, Last::Other)
            }
        }
    }

    /// Reads the next token: its role. A closing bracket leaves `within` as it is.
    pub fn read(&mut self, symbol: Symbol, piece: &Piece<'_>) -> Role {
        match symbol {
            Symbol::Comment => Role::Spaced,
            Symbol::Name => self.read_name(piece),
            Symbol::StringValue | Symbol::BlockString => self.read_string(),
            Symbol::Number => self.read_value(Last::Other),
            Symbol::Punctuator(punctuator) => self.read_punctuator(punctuator),
        }
    }
}
