//! Valid and invalid arguments.
use crate::command::{Command, USAGE, read_words};
use crate::error::status;
use crate::tests::said;
use std::test::Fail;

#[test]
fn right_words_say_a_command_and_a_style(rt: HostRuntime) -> Result<(), Fail> {
    for (words, command, indent, multiline) in [
        ("query", Command::Query, 2, false),
        ("minify", Command::Minify, 2, false),
        ("schema", Command::Schema, 2, false),
        ("first", Command::First, 2, false),
        ("first,--multiline", Command::First, 2, true),
        ("schema,--indent,4", Command::Schema, 4, false),
        ("query,--multiline", Command::Query, 2, true),
        ("query,--indent,4", Command::Query, 4, false),
        (
            "query,--indent,0000000007,--multiline",
            Command::Query,
            7,
            true,
        ),
        (
            "query,--multiline,--indent,4294967295",
            Command::Query,
            4294967295,
            true,
        ),
    ] {
        let (said, style) = said(rt.alloc(), words)?.ok_or("refused")?;
        let settings = (said, style.indentation(), style.has_multiline_arguments());
        assert_eq!(rt; settings, (command, indent, multiline), "{words}");
    }
    Ok(())
}

#[test]
fn wrong_words_say_nothing(rt: HostRuntime) -> Result<(), Fail> {
    let alloc = rt.alloc();
    assert!(rt; read_words(Vec::new(alloc)).is_none());
    for words in [
        "",
        "minify,--multiline",
        "first,--indent",
        "first,minify",
        "query,--indent,",
        "query,--indent,+4",
        "query,--indent,-4",
        "query,--indent,4 ",
        "query,--indent,a",
        "query,--indent,4294967296",
        "query,--indent,00000000004",
        "query,--indent",
        "query,--multiline,--multiline",
        "query,--indent,4,--indent,4",
        "query,query",
        "Query",
    ] {
        assert!(rt; said(alloc, words)?.is_none(), "{words}");
    }
    assert_eq!(rt; status(None), 2);
    assert_eq!(rt;
        USAGE,
        "usage: gql query|schema|minify|first [--indent N] [--multiline]"
    );
    Ok(())
}
