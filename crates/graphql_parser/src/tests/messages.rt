//! The messages of inputs that are too long, which no test can make.
use crate::tests::page::Page;
use crate::{query, schema};
use graphql_core::common::Fault;
use graphql_query::MinifyError;

#[test]
fn inputs_that_are_too_long(rt: HostRuntime) {
    let mut page = Page::new(rt.alloc());
    page.show(&query::ParseError::from(Fault::text_too_long()));
    page.show(&schema::ParseError::from(Fault::text_too_long()));
    page.show(&MinifyError::from(Fault::text_too_long()));
    assert_eq!(rt;
        page.text(),
        "query parse error: Parse error at 1:1
text too long

schema parse error: Parse error at 1:1
text too long

query minify error: text too long
"
    );
}
