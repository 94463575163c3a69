//! The command `one` alone: the bundle of the standard input is answered on the standard output.
#![tactic(auto)]

use bundle_calls::one;
use std::process::ExitCode;
use tk_io::{StdIntake, StdSink};

/// Ends with the status of the call.
fn main(rt: HostRuntime) -> ExitCode {
    let mut input = StdIntake::make(rt.stdin());
    let mut out = StdSink::make(rt.stdout());
    let status = one(rt.alloc(), &mut input, &mut out);
    ExitCode::from(status.code())
}
