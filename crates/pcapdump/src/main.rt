//! Prints what the control packets of capture files hold.
#![tactic(auto)]

use dump_captures::run_program;
use std::io::IsTerminal;
use std::process::ExitCode;

fn main(rt: HostRuntime) -> ExitCode {
    let is_terminal = rt.stdout().is_terminal();
    ExitCode::from(run_program(&rt, is_terminal))
}
