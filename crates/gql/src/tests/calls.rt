//! How often a run calls its devices.
use crate::command::Command;
use crate::counted::Counted;
use crate::engine::run;
use crate::tests::devices::{Sink, Source};
use graphql_parser::Style;
use std::alloc::{AllocError, Global};
use std::io::Write;
use std::test::Fail;

/// An input of 20,000 bytes, nearly all of it a comment.
fn long_text(alloc: Global) -> Result<String, AllocError> {
    let mut text = "#".repeat(alloc, 19_995)?;
    text.push_str("\n{ a }")?;
    Ok(text)
}

/// A run reads at least 5,000 bytes at once, and writes and flushes its output once.
#[test]
fn a_long_input_takes_few_reads(rt: HostRuntime) -> Result<(), Fail> {
    let alloc = rt.alloc();
    let text = long_text(alloc)?;
    let mut source = Source::of(text.as_bytes());
    source.step = text.len();
    let mut sink = Sink::new(alloc);
    let returned = run(
        alloc,
        Command::Query,
        &Style::default(),
        &mut Counted::new(&mut source),
        &mut Counted::new(&mut sink),
    );
    assert!(rt; returned.is_ok());
    assert_eq!(rt; sink.taken.as_slice(), b"{\n  a\n}\n".as_slice());
    assert!(rt; source.left.is_empty());
    // at most four reads, and the end
    assert!(rt; source.calls <= 5, "{} reads", source.calls);
    assert_eq!(rt; (sink.calls, sink.flushed), (1, 1));
    Ok(())
}

/// Each call on a counted device is one call on the device itself, whether it fails or not.
#[test]
fn a_call_is_handed_on_once(rt: HostRuntime) -> Result<(), Fail> {
    for (flushes, faults) in [(true, 0), (false, 1)] {
        let mut sink = Sink::new(rt.alloc());
        sink.flushes = flushes;
        let mut counted = Counted::new(&mut sink);
        assert_eq!(rt; counted.write(b"abc").ok(), Some(3));
        assert_eq!(rt; counted.flush().is_ok(), flushes);
        assert_eq!(rt; counted.faults(), faults);
        assert_eq!(rt; (sink.calls, sink.flushed), (1, 1));
        assert_eq!(rt; sink.taken.as_slice(), b"abc".as_slice());
    }
    Ok(())
}
