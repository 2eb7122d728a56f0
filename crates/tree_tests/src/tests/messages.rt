//! Errors that no input leads to: their messages, and what `Debug` shows of them.
use crate::tests::page::Page;
use graphql_parser::common::UnquoteError;
use graphql_parser::schema::DirectiveLocation;
use graphql_parser::{Cause, FormatError};
use std::str::FromStr;
use std::test::Fail;

#[test]
fn errors_without_an_input(rt: HostRuntime) -> Result<(), Fail> {
    let unnamed = DirectiveLocation::from_str("Query").err().ok_or("named")?;
    let copy = unnamed;
    let mut page = Page::new(rt.alloc());
    page.both(&Cause::TextTooLong);
    page.both(&Cause::OutOfMemory);
    page.both(&FormatError::TooWide);
    page.both(&FormatError::OutOfMemory);
    page.both(&UnquoteError::BadEscape);
    page.both(&UnquoteError::OutOfMemory);
    page.both(&unnamed);
    assert_eq!(rt;
        page.text(),
        "text too long
TextTooLong
out of memory
OutOfMemory
format error: indentation too wide
TooWide
format error: out of memory
OutOfMemory
bad escape in string
BadEscape
out of memory
OutOfMemory
invalid directive location
InvalidDirectiveLocation
"
    );
    assert!(rt; unnamed == copy);
    Ok(())
}
