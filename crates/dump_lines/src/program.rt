//! The program: its arguments, what it says on standard error, and its status.

use crate::{Fault, run, status};
use std::env::Env;
use std::io::Input;
use std::{env, io};

// The exit status where an argument is given.
const USAGE_STATUS: u8 = 2;

// Whether there is an argument after the program's name.
fn has_arguments(rt: &(impl Env + Alloc)) -> Result<bool, Fault> {
    match env::args(rt) {
        Ok(mut arguments) => Ok(arguments.nth(1).is_some()),
        // An argument that is not UTF-8 counts too.
        Err(error) if error.kind() == io::ErrorKind::InvalidData => Ok(true),
        Err(error) if error.kind() == io::ErrorKind::OutOfMemory => Err(Fault::Memory),
        Err(_) => Err(Fault::Read),
    }
}

/// The whole of `wiredump`: prints what the lines of standard input hold, and returns the program's status.
pub fn run_program(rt: &(impl Env + Input + Print + Eprint + AllocGlobal)) -> u8 {
    let answer = match has_arguments(rt) {
        Ok(true) => {
            let _ = eprintln!(rt; "usage: wiredump");
            return USAGE_STATUS;
        }
        Ok(false) => run(rt.alloc(), rt.reader(), io::writer(rt)),
        Err(fault) => Err(fault),
    };
    if answer.is_err() {
        let _ = eprintln!(rt; "wiredump: failed");
    }
    status(&answer)
}
