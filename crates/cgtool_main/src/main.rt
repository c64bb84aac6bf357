// The program cgtool: prints and ends as the crate cgtool says.
#![tactic(auto)]

use cgtool::cgtool;
use std::process::ExitCode;

fn main(rt: HostRuntime) -> ExitCode {
    match cgtool(&rt) {
        0 => ExitCode::SUCCESS,
        1 => ExitCode::FAILURE,
        _ => ExitCode::from(2),
    }
}
