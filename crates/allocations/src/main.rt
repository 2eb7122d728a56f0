//! `allocations`: calls the library, and prints how many results are right, out of memory, or wrong: first for the
//! calls that take no memory, and then for those that allocate.
//!
//! `tools/failing_allocations` runs it with each allocation failing in turn, and with all of them failing from each on.
#![tactic(auto)]

mod calls;
mod documents;
mod parts;
mod schemas;
mod streams;
mod tally;
mod unfailing;

use crate::calls::make_calls;
use crate::tally::Tally;
use crate::unfailing::make_unfailing_calls;
use std::process::ExitCode;

/// Prints the tally of some calls.
fn report(rt: &HostRuntime, calls: &str, tally: Tally) {
    let Tally {
        right,
        out_of_memory,
        wrong,
    } = tally;
    let _ = println!(rt; "{calls}: {right} right, {out_of_memory} out of memory, {wrong} wrong");
}

fn main(rt: HostRuntime) -> ExitCode {
    let unfailing = make_unfailing_calls(rt.alloc());
    let allocating = make_calls(rt.alloc());
    report(&rt, "take no memory", unfailing);
    report(&rt, "allocate", allocating);
    let all_are_right = unfailing.wrong == 0 && allocating.wrong == 0;
    ExitCode::from(if all_are_right { 0 } else { 1 })
}
