//! Runs a script of events on a state: reads standard input, writes to standard output, and writes
//! hints to standard error.
#![tactic(auto)]

#[cfg(test)]
mod event_tests;
#[cfg(test)]
mod hint_tests;
#[cfg(test)]
mod key_tests;
#[cfg(test)]
mod rows;
#[cfg(test)]
mod tests;

pub use scm_script::{play, play_with_hints, read_state};
use std::io;
use std::process::ExitCode;

fn main(rt: HostRuntime) -> ExitCode {
    let status = play_with_hints(rt.alloc(), rt.reader(), io::writer(&rt), rt.stderr());
    ExitCode::from(status)
}
