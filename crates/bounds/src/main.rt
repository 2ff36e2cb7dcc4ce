//! The program `bounds`. All that it does stands in `bounds_start`.
#![tactic(auto)]

use bounds_start::start;
use std::process::ExitCode;

fn main(rt: HostRuntime) -> ExitCode {
    ExitCode::from(start(&rt, rt.stdout(), rt.stderr()))
}
