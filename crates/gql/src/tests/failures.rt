//! Input that is not UTF-8, and devices that fail.
use crate::error::RunError;
use crate::tests::devices::{Sink, Source};
use crate::tests::{assert_ended, run_over};
use std::io::ErrorKind;
use std::test::Fail;

const OUTPUT: &str = "{\n  a\n}\n";

#[test]
fn rejects_what_is_not_utf8(rt: HostRuntime) -> Result<(), Fail> {
    let alloc = rt.alloc();
    let ran = run_over(alloc, "query", Source::of(&[123, 255]), Sink::new(alloc))?;
    assert!(rt; matches!(&ran.returned, Err(RunError::NotUtf8)));
    assert_ended(&rt, alloc, &ran, b"", "gql: input is not UTF-8", 2)
}

#[test]
fn a_read_that_fails_ends_the_run(rt: HostRuntime) -> Result<(), Fail> {
    let alloc = rt.alloc();
    for kind in [ErrorKind::BrokenPipe, ErrorKind::Interrupted] {
        // six bytes, and then the end
        for failing in 1..8 {
            let mut source = Source::of(b"{ a } ");
            source.step = 1;
            source.failing = failing;
            source.kind = kind;
            let ran = run_over(alloc, "query", source, Sink::new(alloc))?;
            assert!(rt;
                matches!(&ran.returned, Err(RunError::Read)),
                "at {failing}"
            );
            assert_eq!(rt; ran.read_faults, 1);
            assert_ended(&rt, alloc, &ran, b"", "gql: read failed", 2)?;
        }
    }
    Ok(())
}

#[test]
fn a_slow_reader_and_a_slow_writer_give_the_whole_output(rt: HostRuntime) -> Result<(), Fail> {
    let alloc = rt.alloc();
    let mut source = Source::of(b"{ a }");
    source.step = 1;
    let mut sink = Sink::new(alloc);
    sink.step = 1;
    let ran = run_over(alloc, "query", source, sink)?;
    assert_eq!(rt; (ran.read_faults, ran.write_faults), (0, 0));
    assert_ended(&rt, alloc, &ran, OUTPUT.as_bytes(), "", 0)
}

/// A failed write leaves a prefix of the output. A write that takes 0 bytes and a flush that fails are also errors.
/// An interrupted write or flush is not repeated.
#[test]
fn a_write_that_fails_ends_the_run(rt: HostRuntime) -> Result<(), Fail> {
    let alloc = rt.alloc();
    let (broken, interrupted) = (ErrorKind::BrokenPipe, ErrorKind::Interrupted);
    for (words, text, step, failing, flushes, kind, written) in [
        ("query", "{ a }", 1, 4, true, broken, "{\n "),
        ("query", "{ a }", 1, 4, true, interrupted, "{\n "),
        ("query", "{ a }", 0, 0, true, broken, ""),
        ("query", "{ a }", 4096, 0, false, broken, OUTPUT),
        ("query", "{ a }", 4096, 0, false, interrupted, OUTPUT),
        // a write of the rest fails
        ("first", "{ a } ;x", 1, 10, true, broken, "{\n  a\n}\n;"),
    ] {
        let mut sink = Sink::new(alloc);
        sink.step = step;
        sink.failing = failing;
        sink.flushes = flushes;
        sink.kind = kind;
        let ran = run_over(alloc, words, Source::of(text.as_bytes()), sink)?;
        assert!(rt; matches!(&ran.returned, Err(RunError::Write)), "{written}");
        assert_eq!(rt; ran.write_faults, 1);
        assert_ended(&rt, alloc, &ran, written.as_bytes(), "gql: write failed", 2)?;
    }
    Ok(())
}
