//! Positions, styles, numbers, tokens and errors as values.
use crate::tests::page::Page;
use graphql_parser::common::{FloatLiteral, Number, UnquoteError};
use graphql_parser::tokenizer::{Bad, Kind, Token};
use graphql_parser::{BadToken, Cause, FormatError, Pos, Style};
use std::alloc::Global;
use std::cmp::Ordering;
use std::hash::{BuildHasher, BuildHasherDefault, FoldHasher};
use std::test::Fail;

#[test]
fn positions(rt: HostRuntime) {
    let early = Pos { line: 1, column: 9 };
    let late = Pos { line: 2, column: 1 };
    let mut page = Page::new(rt.alloc());
    page.show(&early);
    page.debug(&late);
    page.show(&Pos::default());
    assert_eq!(rt; page.text(), "1:9\nPos(2:1)\n0:0\n");
    let orders = (early.cmp(&late), early.partial_cmp(&late));
    assert_eq!(rt; orders, (Ordering::Less, Some(Ordering::Less)));
    assert!(rt; late < Pos { line: 2, column: 2 });
    let hasher: BuildHasherDefault<FoldHasher> = BuildHasherDefault::default();
    let same = Pos { line: 1, column: 9 };
    assert_eq!(rt; hasher.hash_one(&early), hasher.hash_one(&same));
}

#[test]
fn styles_are_cloned_compared_and_shown(rt: HostRuntime) -> Result<(), Fail> {
    let mut page = Page::new(rt.alloc());
    for (indent, multiline) in [(2, false), (2, true), (7, false), (7, true)] {
        let mut style = Style::default();
        style.indent(indent).multiline_arguments(multiline);
        let copy = style.clone()?;
        let settings = (copy.indentation(), copy.has_multiline_arguments());
        let equals = (copy == style, copy == Style::default());
        assert_eq!(rt;
            (settings, equals),
            ((indent, multiline), (true, indent == 2 && !multiline))
        );
        page.debug(&copy);
    }
    assert_eq!(rt;
        page.text(),
        "Style { indent: 2, multiline_arguments: false }
Style { indent: 2, multiline_arguments: true }
Style { indent: 7, multiline_arguments: false }
Style { indent: 7, multiline_arguments: true }
"
    );
    Ok(())
}

#[test]
fn numbers(rt: HostRuntime) {
    let read = (
        Number::from(-7).as_i64(),
        Number::from_i64(i64::MIN).as_i64(),
    );
    assert_eq!(rt; read, (Some(-7), Some(i64::MIN)));
    assert!(rt; Number::from(1) != Number::from_i64(2));
}

#[test]
fn tokens_and_lexical_errors_are_shown_and_compared(rt: HostRuntime) {
    let (kind, other) = (Kind::Name, Kind::BlockString);
    let name = Token { kind, value: "a" };
    let copy = name;
    let block = Token {
        kind: other,
        value: "a",
    };
    let (dot, run) = (Bad::BareDot, Bad::Integer("01"));
    let again = run;
    let mut page = Page::new(rt.alloc());
    page.debug(&kind);
    page.debug(&other);
    page.debug(&name);
    page.debug(&block);
    page.debug(&dot);
    page.debug(&run);
    assert_eq!(rt;
        page.text(),
        "Name
BlockString
Token { kind: Name, value: \"a\" }
Token { kind: BlockString, value: \"a\" }
BareDot
Integer(\"01\")
"
    );
    assert!(rt; kind != other && kind == Kind::Name && name == copy && name != block);
    assert!(rt; run == again && run != dot && run != Bad::Integer("02") && run != Bad::Float("01"));
}

#[test]
fn causes_are_shown_and_compared(rt: HostRuntime) -> Result<(), Fail> {
    let character = Cause::BadToken(BadToken::Character(';'));
    let run = Cause::BadToken(BadToken::Integer(String::from_str(rt.alloc(), "01")?));
    let mut page = Page::new(rt.alloc());
    page.debug(&character);
    page.debug(&run);
    assert_eq!(rt;
        page.text(),
        "BadToken(Character(';'))\nBadToken(Integer(\"01\"))\n"
    );
    assert!(rt; character != run && character == Cause::BadToken(BadToken::Character(';')));
    Ok(())
}

#[test]
fn errors_are_compared(rt: HostRuntime) {
    assert!(rt;
        FormatError::TooWide != FormatError::OutOfMemory
            && UnquoteError::BadEscape != UnquoteError::OutOfMemory
    );
}

/// A float literal of this spelling.
fn literal(alloc: Global, text: &str) -> Result<FloatLiteral, Fail> {
    let literal = FloatLiteral::new(String::from_str(alloc, text)?)?;
    Ok(literal)
}

#[test]
fn literals_are_shown_and_compared(rt: HostRuntime) -> Result<(), Fail> {
    let (short, long) = (literal(rt.alloc(), "1.5")?, literal(rt.alloc(), "1.50")?);
    let mut page = Page::new(rt.alloc());
    page.debug(&short);
    page.debug(&long);
    assert_eq!(rt;
        page.text(),
        "FloatLiteral { text: \"1.5\" }\nFloatLiteral { text: \"1.50\" }\n"
    );
    assert!(rt; short != long && short == short.clone()?);
    Ok(())
}
