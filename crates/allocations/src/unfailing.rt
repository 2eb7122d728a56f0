//! The calls that take no memory, so that they succeed even if every allocation fails.
use crate::documents::ParseFailure;
use crate::tally::Tally;
use graphql_parser::common::{FloatLiteral, Names, Number, Text};
use graphql_parser::query::{self, MinifyError, minify_query, parse_query};
use graphql_parser::schema::{
    self, DirectiveDefinition, DirectiveLocation, EnumType, EnumTypeExtension, EnumValue,
    InputObjectType, InputObjectTypeExtension, InterfaceType, InterfaceTypeExtension, ObjectType,
    ObjectTypeExtension, ScalarType, ScalarTypeExtension, SchemaDefinition, SchemaExtension,
    UnionType, UnionTypeExtension, parse_schema,
};
use graphql_parser::tokenizer::{Kind, Token, TokenStream};
use graphql_parser::{Cause, FormatError, Pos, Style};
use std::alloc::{AllocError, Global};
use std::borrow::CowStr;
use std::fmt::{self, Write};
use std::hash::{BuildHasher, BuildHasherDefault, FoldHasher};
use std::str::FromStr;

/// A writer that accepts the parts of one string, and nothing else.
#[derive(Drop)]
struct Expected<'a> {
    left: &'a str,
}

impl<'a> fmt::Write for Expected<'a> {
    fn write_str(&mut self, text: &str) -> fmt::Result {
        match self.left.strip_prefix(text) {
            Some(left) => {
                self.left = left;
                Ok(())
            }
            None => Err(fmt::Error),
        }
    }
}

/// Whether `Display` shows a value as this string.
fn is_shown<D: fmt::Display>(value: &D, text: &str) -> bool {
    let mut expected = Expected { left: text };
    write!(expected, "{value}").is_ok() && expected.left.is_empty()
}

/// Whether `Debug` shows a value as this string.
fn is_debugged<D: fmt::Debug>(value: &D, text: &str) -> bool {
    let mut expected = Expected { left: text };
    write!(expected, "{value:?}").is_ok() && expected.left.is_empty()
}

/// Whether a value can be cloned, and its clone is equal.
fn is_cloned<C: Clone + PartialEq + Drop>(value: &C) -> bool {
    let clone: Result<C, AllocError> = value.clone();
    match clone {
        Ok(clone) => clone == *value,
        Err(_) => false,
    }
}

/// The values that are made before the calls.
#[derive(Drop)]
struct Made {
    /// A document of two levels, and one of three in multi-line style.
    queries: (
        query::Document<'static, &'static str>,
        query::Document<'static, &'static str>,
    ),
    /// A document of two levels: a block string as a description among fields.
    schema: schema::Document<'static, &'static str>,
    /// A document with owned names.
    owned: query::Document<'static, String>,
    /// The spelling of a float literal, and a string that is none.
    texts: (String, String),
    name: String,
    /// Why inputs are rejected.
    faults: (query::ParseError, schema::ParseError, MinifyError),
}

/// Why inputs are rejected, unless an allocation fails.
fn faults(alloc: Global) -> Option<(query::ParseError, schema::ParseError, MinifyError)> {
    let query = parse_query::<&str>(alloc, "{ }").err()?;
    let schema = parse_schema::<&str>(alloc, "type A { }").err()?;
    let minified = minify_query(alloc, String::from_str(alloc, "{ a ; }").ok()?).err()?;
    let ran_out = ParseFailure::of_query(&query).ran_out
        || ParseFailure::of_schema(&schema).ran_out
        || ParseFailure::of_minifying(&minified).ran_out;
    if ran_out {
        return None;
    }
    Some((query, schema, minified))
}

/// The values that are made before the calls, unless an allocation fails.
fn make(alloc: Global) -> Option<Made> {
    let nested = parse_query::<&str>(alloc, "{ a { b } }").ok()?;
    let list = parse_query::<&str>(alloc, "{ a(l: []) }").ok()?;
    let schema = parse_schema::<&str>(alloc, "type A { \"\"\"x\ny\"\"\" b: C }").ok()?;
    let owned = parse_query::<String>(alloc, "{ a }").ok()?;
    let literal = String::from_str(alloc, "1.5E3").ok()?;
    let no_literal = String::from_str(alloc, "1e9").ok()?;
    let name = String::from_str(alloc, "a").ok()?;
    Some(Made {
        queries: (nested, list),
        schema,
        owned,
        texts: (literal, no_literal),
        name,
        faults: faults(alloc)?,
    })
}

/// Counts a result of formatting, which must be too wide.
fn count_too_wide(tally: &mut Tally, returned: Result<String, FormatError>) {
    match returned {
        Err(error) => {
            tally.check(error == FormatError::TooWide);
            tally.check(is_shown(&error, "format error: indentation too wide"));
        }
        Ok(_) => tally.check(false),
    }
}

/// Formats documents too wide: the levels that are open at once take 2^32 spaces or more.
fn format_too_wide(alloc: Global, tally: &mut Tally, made: &Made) {
    let (nested, list) = &made.queries;
    let mut style = Style::default();
    for indent in [4294967295, 2147483648] {
        style.indent(indent);
        count_too_wide(tally, nested.format(alloc, &style));
    }
    style.multiline_arguments(true);
    count_too_wide(tally, made.schema.format(alloc, &style));
    style.indent(1431655766);
    count_too_wide(tally, list.format(alloc, &style));
}

/// Checks why inputs are rejected.
fn report_made_faults(tally: &mut Tally, made: &Made) {
    let (query, schema, minified) = &made.faults;
    tally.check(query.position() == Some(Pos { line: 1, column: 3 }));
    tally.check(matches!(
        query.cause(),
        Cause::UnexpectedToken {
            kind: Kind::Punctuator,
            ..
        }
    ));
    tally.check(is_shown(
        query,
        "query parse error: Parse error at 1:3\nUnexpected `}[Punctuator]`\n",
    ));
    tally.check(
        schema.position()
            == Some(Pos {
                line: 1,
                column: 10,
            }),
    );
    tally.check(is_shown(schema.cause(), "Unexpected `}[Punctuator]`"));
    tally.check(minified.position() == Some(Pos { line: 1, column: 5 }));
    tally.check(matches!(minified.cause(), Cause::BadToken(_)));
}

/// Tokenizes inputs, and checks the positions.
fn tokenize(tally: &mut Tally) {
    let mut stream = TokenStream::new("\"é\" b");
    tally.check((stream.offset(), stream.depth(), stream.cuts()) == (0, 0, 0));
    let string = Token {
        kind: Kind::StringValue,
        value: "\"é\"",
    };
    tally.check(stream.next_token() == Ok(Some(string)));
    tally.check(stream.position() == Pos { line: 1, column: 5 });
    tally.check(stream.offset() == 5);
    let name = Token {
        kind: Kind::Name,
        value: "b",
    };
    tally.check(stream.next_token() == Ok(Some(name)));
    tally.check(stream.next_token() == Ok(None));
    tally.check(stream.cuts() == 3);
    let mut bad = TokenStream::new("{ 1.");
    tally.check(is_shown(
        &bad.next_token().ok().flatten().unwrap_or(name),
        "{[Punctuator]",
    ));
    tally.check(bad.next_token().is_err() && bad.depth() == 1);
}

/// Compares positions, styles and numbers, and makes a float literal.
fn use_plain_values(tally: &mut Tally, literal: String, no_literal: String) {
    let early = Pos { line: 1, column: 9 };
    let late = Pos { line: 2, column: 1 };
    tally.check(early < late && early == Pos { line: 1, column: 9 } && early != late);
    tally.check(
        is_shown(&early, "1:9")
            && is_debugged(&late, "Pos(2:1)")
            && is_shown(&Pos::default(), "0:0"),
    );
    let hasher: BuildHasherDefault<FoldHasher> = BuildHasherDefault::default();
    tally.check(hasher.hash_one(&early) == hasher.hash_one(&Pos { line: 1, column: 9 }));
    let mut style = Style::default();
    style.indent(4).multiline_arguments(true);
    tally.check((style.indentation(), style.has_multiline_arguments()) == (4, true));
    tally.check(style != Style::default() && is_cloned(&style));
    tally.check(is_debugged(&style, "Style { indent: 4, multiline_arguments: true }"));
    let number = Number::from(-7);
    tally.check(number.as_i64() == Some(-7) && is_cloned(&number));
    tally.check(is_debugged(&number, "Number(-7)"));
    tally.check(Number::from_i64(i64::MIN).as_i64() == Some(i64::MIN));
    match FloatLiteral::new(literal) {
        Ok(literal) => tally.check(literal.as_str() == "1.5E3"),
        Err(_) => tally.check(false),
    }
    match FloatLiteral::new(no_literal) {
        Ok(_) => tally.check(false),
        Err(text) => tally.check(text.as_str() == "1e9"),
    }
}

/// Converts directive locations to and from their words.
fn name_locations(tally: &mut Tally) {
    match DirectiveLocation::from_str("FIELD") {
        Ok(location) => {
            tally.check(location == DirectiveLocation::Field && location.as_str() == "FIELD");
            tally.check(location.is_query() && !location.is_schema());
            let variable = DirectiveLocation::VariableDefinition;
            tally.check(variable.is_schema() && !variable.is_query());
            tally.check(is_debugged(&location, "Field") && is_cloned(&location));
            let hasher: BuildHasherDefault<FoldHasher> = BuildHasherDefault::default();
            tally.check(hasher.hash_one(&location) == hasher.hash_one(&DirectiveLocation::Field));
        }
        Err(_) => tally.check(false),
    }
    for word in ["field", "FIELD ", ""] {
        match DirectiveLocation::from_str(word) {
            Ok(_) => tally.check(false),
            Err(error) => tally.check(is_shown(&error, "invalid directive location")),
        }
    }
}

/// Makes trees with only a name.
macro_rules! make_named {
    ($alloc:expr, $tally:expr; $($kind:ident),*) => {{
        $($tally.check($kind::<&str>::new($alloc, "A").name == "A");)*
    }};
}

/// Makes types, their parts and their extensions with only a name, and empty trees.
fn make_types(alloc: Global, tally: &mut Tally) {
    make_named!(alloc, tally; ScalarType, ObjectType, InterfaceType, UnionType, EnumType, InputObjectType);
    make_named!(alloc, tally; EnumValue, DirectiveDefinition, ScalarTypeExtension, ObjectTypeExtension);
    make_named!(alloc, tally; InterfaceTypeExtension, UnionTypeExtension, EnumTypeExtension, InputObjectTypeExtension);
    tally.check(SchemaDefinition::<&str>::empty(alloc).query.is_none());
    tally.check(SchemaExtension::<&str>::empty(alloc).query.is_none());
    tally.check(
        schema::Document::<'_, &str>::empty(alloc)
            .definitions
            .is_empty(),
    );
}

/// Whether a name was made, and is this string.
fn is_name<N: Names>(made: &Result<N::Value, AllocError>, text: &str) -> bool {
    match made {
        Ok(name) => N::view(name) == text,
        Err(AllocError) => false,
    }
}

/// Makes and views names.
fn name_texts(alloc: Global, tally: &mut Tally, name: &String) {
    let same: Result<&str, AllocError> = <&str as Text<'_>>::make(alloc, "a");
    tally.check(is_name::<&str>(&same, "a"));
    let borrowed: Result<CowStr<'_>, AllocError> = <CowStr<'_> as Text<'_>>::make(alloc, "a");
    tally.check(is_name::<CowStr<'_>>(&borrowed, "a"));
    tally.check(<String as Names>::view(name) == "a");
}

/// Makes every call that takes no memory, after the values that the calls need were made.
pub fn make_unfailing_calls(alloc: Global) -> Tally {
    let mut tally = Tally::default();
    let Some(made) = make(alloc) else {
        tally.add(false, true);
        return tally;
    };
    format_too_wide(alloc, &mut tally, &made);
    report_made_faults(&mut tally, &made);
    tokenize(&mut tally);
    name_locations(&mut tally);
    make_types(alloc, &mut tally);
    name_texts(alloc, &mut tally, &made.name);
    tally.check(made.owned.into_static(alloc).is_ok());
    let (literal, no_literal) = made.texts;
    use_plain_values(&mut tally, literal, no_literal);
    tally
}
