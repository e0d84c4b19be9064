//! The program once more, run on a certificate that is rejected, so that a code other than 0 comes from a real end of
//! it.
#![tactic(auto)]

use sc_app::{run_to_code, words_of_program};
use sc_outside::{StdSink, StdSource};
use std::process::ExitCode;

fn main(rt: HostRuntime) -> ExitCode {
    ExitCode::from(run_to_code(
        rt.alloc(),
        words_of_program(&rt),
        &mut StdSource::new(rt.stdin()),
        &mut StdSink::new(rt.stdout()),
        &mut StdSink::new(rt.stderr()),
    ))
}
