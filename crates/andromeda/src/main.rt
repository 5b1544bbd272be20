//! The program: reads standard input, writes standard output, and ends with the status of the call.
#![tactic(auto)]

use ft_outside::{StdSink, StdSource};
use ft_top::top;
use std::process::ExitCode;
use std::{env, io};

// The words after the program's name.
fn words(rt: &HostRuntime) -> io::Result<Vec<String>> {
    Ok(env::args(rt)?.skip(1).collect(rt.alloc())?)
}

fn main(rt: HostRuntime) -> ExitCode {
    match words(&rt) {
        Ok(words) => {
            let mut input = StdSource::new(rt.stdin());
            let mut output = StdSink::new(rt.stdout());
            ExitCode::from(top(rt.alloc(), &words, &mut input, &mut output))
        }
        Err(_) => ExitCode::FAILURE,
    }
}
