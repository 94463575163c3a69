//! The program: the top call over the words, the standard streams and the files of the process, and the lists that hosts serve.
#![tactic(auto)]

use place_shelf::PlaceShelf;
use std::net::{IpAddr, Ipv6Addr};
use std::process::ExitCode;
use tk_io::{NetPort, StdIntake, StdSink};
use topk_top::run_process;

/// Ends with the status of the top call.
fn main(rt: HostRuntime) -> ExitCode {
    let mut shelf = PlaceShelf::make(rt.alloc(), &rt, &rt);
    let mut input = StdIntake::make(rt.stdin());
    let mut out = StdSink::make(rt.stdout());
    let mut port = NetPort::make(rt, rt, IpAddr::V6(Ipv6Addr::UNSPECIFIED));
    let code = run_process(
        &rt,
        &rt,
        rt.alloc(),
        &mut shelf,
        &mut input,
        &mut out,
        &mut port,
    );
    ExitCode::from(code)
}
