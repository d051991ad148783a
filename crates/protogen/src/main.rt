//! The program: it does what its words ask, from standard input to standard output.
#![tactic(auto)]

use pg_io::{RealSink, RealSource};
use protogen_cli::{Status, protogen};
use std::alloc::AllocError;
use std::io::ErrorKind;
use std::process::ExitCode;
use std::rt::Env;
use std::{env, io};

#[cfg(test)]
mod tests;

fn main(rt: HostRuntime) -> ExitCode {
    run(&rt).exit_code()
}

fn run(rt: &HostRuntime) -> Status {
    let Ok(words) = words(rt) else {
        return Status::Memory;
    };
    let mut source = RealSource::new(rt.reader());
    let mut sink = RealSink::new(io::writer(rt));
    protogen(rt.alloc(), &words, &mut source, &mut sink)
}

// The words after the program's name, and none if they can't be had as text.
fn words(rt: &(impl Env + AllocGlobal)) -> Result<Vec<String>, AllocError> {
    match env::args(rt) {
        Ok(args) => args.skip(1).collect(rt.alloc()),
        Err(error) if error.kind() == ErrorKind::OutOfMemory => Err(AllocError),
        Err(_) => Ok(Vec::new(rt.alloc())),
    }
}
