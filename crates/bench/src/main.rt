//! `bench`: how long the library takes to tokenize, parse, format and minify a document in memory.
//!
//! It does all kinds of work in turn. A last argument selects only one of them, by its name in the output.
#![tactic(auto)]

mod work;

use crate::work::{ALL, Document, Sample, Work, name, time, work_named};
use graphql_parser::{query, schema};
use std::process::ExitCode;
use std::time::{Duration, Instant};
use std::{env, fs, io};

/// The message for invalid arguments.
const USAGE: &str = "usage: bench query|schema FILE ROUNDS [WORK]";

#[derive(Clone, Copy)]
enum Language {
    Query,
    Schema,
}

/// The language that a word names.
fn read_language(word: &str) -> Option<Language> {
    match word {
        "query" => Some(Language::Query),
        "schema" => Some(Language::Schema),
        _ => None,
    }
}

/// What the arguments ask for.
#[derive(Drop)]
struct Order {
    language: Language,
    file: String,
    rounds: u32,
    /// The only kind of work to do; `None` for all.
    only: Option<Work>,
}

/// What the arguments ask for; `None` if they are invalid.
fn read_order(rt: &HostRuntime) -> Option<Order> {
    let mut args = env::args(rt).ok()?.skip(1);
    let language = read_language(args.next()?.as_str())?;
    let file = args.next()?;
    let rounds: u32 = args.next()?.as_str().parse().ok()?;
    let only = match args.next() {
        Some(word) => Some(work_named(word.as_str())?),
        None => None,
    };
    if rounds == 0 || args.next().is_some() {
        return None;
    }
    Some(Order {
        language,
        file,
        rounds,
        only,
    })
}

/// A kind of work, and the least time that it took so far.
#[derive(Drop)]
struct Measure {
    work: Work,
    least: Option<Duration>,
}

/// The lesser of the least time so far, if there is one, and another time.
fn lesser(least: Option<Duration>, elapsed: Duration) -> Option<Duration> {
    match least {
        Some(before) if before < elapsed => Some(before),
        _ => Some(elapsed),
    }
}

/// Whether this kind of work is left out, because another is the only one.
fn is_left_out(work: Work, only: Option<Work>) -> bool {
    match only {
        Some(only) => only != work,
        None => false,
    }
}

/// Does each kind of work once, or the only one. Returns whether all succeeded.
fn measure_once<'a, B: Document<'a>, O: Document<'a>>(
    rt: &HostRuntime,
    measures: &mut [Measure],
    only: Option<Work>,
    sample: &Sample<'a, '_, B>,
) -> io::Result<bool> {
    'measures: for measure in measures {
        if is_left_out(measure.work, only) {
            continue;
        }
        let Some(elapsed) = time::<B, O>(rt, measure.work, sample)? else {
            eprintln!(rt; "{}: not done", name(measure.work))?;
            return Ok(false);
        };
        measure.least = lesser(measure.least, elapsed);
    }
    Ok(true)
}

/// Prints the least times in microseconds.
fn print_times(rt: &HostRuntime, measures: &[Measure]) -> io::Result<()> {
    'measures: for measure in measures {
        if let Some(time) = measure.least {
            println!(rt; "{}: {} us", name(measure.work), time.as_micros())?;
        }
    }
    Ok(())
}

/// All kinds of work, not yet measured.
fn measures() -> [Measure; 8] {
    ALL.map(|work| Measure { work, least: None })
}

/// The document of an input, and the time to parse it for the first time; `None` if the input is rejected.
fn parse_cold<'a, B: Document<'a>>(
    rt: &HostRuntime,
    source: &'a str,
) -> io::Result<Option<(B, Duration)>> {
    let start = Instant::now(rt)?;
    match B::parse(rt.alloc(), source) {
        Ok(document) => Ok(Some((document, start.elapsed(rt)?))),
        Err(error) => {
            eprintln!(rt; "{error}")?;
            Ok(None)
        }
    }
}

/// Measures all kinds of work on one document in turn, or the only one, and prints the least times.
fn measure_all<'a, B: Document<'a>, O: Document<'a>>(
    rt: &HostRuntime,
    rounds: u32,
    only: Option<Work>,
    source: &'a str,
) -> io::Result<bool> {
    let Some((document, cold)) = parse_cold::<B>(rt, source)? else {
        return Ok(false);
    };
    let Some(written) = document.formatted(rt.alloc()) else {
        eprintln!(rt; "no layout")?;
        return Ok(false);
    };
    let sample = Sample {
        source,
        document: &document,
        written: written.as_str(),
    };
    let mut measures = measures();
    'rounds: for _ in 0..rounds {
        if !measure_once::<B, O>(rt, &mut measures, only, &sample)? {
            return Ok(false);
        }
    }
    println!(rt;
        "{} bytes, {} written, {rounds} rounds",
        source.len(),
        written.len()
    )?;
    println!(rt; "parse for the first time: {} us", cold.as_micros())?;
    print_times(rt, &measures)?;
    Ok(true)
}

/// Reads the file and measures.
fn bench(rt: &HostRuntime, order: &Order) -> io::Result<bool> {
    let text = fs::read_to_string(rt, order.file.as_str())?;
    let source = text.as_str();
    match order.language {
        Language::Query => {
            measure_all::<query::Document<'_, &str>, query::Document<'_, String>>(
                rt,
                order.rounds,
                order.only,
                source,
            )
        }
        Language::Schema => {
            measure_all::<schema::Document<'_, &str>, schema::Document<'_, String>>(
                rt,
                order.rounds,
                order.only,
                source,
            )
        }
    }
}

fn main(rt: HostRuntime) -> ExitCode {
    let Some(order) = read_order(&rt) else {
        let _ = println!(rt; "{USAGE}");
        return ExitCode::from(2);
    };
    match bench(&rt, &order) {
        Ok(true) => ExitCode::from(0),
        Ok(false) => ExitCode::from(1),
        Err(_) => {
            let _ = eprintln!(rt; "bench: cannot read {}, or the clock", order.file);
            ExitCode::from(2)
        }
    }
}
