// The program `netlist`: the words behind its name are carried out from the standard input to the standard output, and a failure is told
// on the standard error. The crate `netlist_cli` says what is done for which words, and what each status means.
#![tactic(auto)]

use netlist_cli::failure::Failure;
use netlist_cli::line::report;
use netlist_cli::run::run;
use nl_base::{Seq, Text};
use nl_io::{StdSink, StdSource};
use std::alloc::Global;
use std::env;
use std::io::ErrorKind;
use std::process::ExitCode;
use std::rt::Env;

/// The words behind the program's name. A word that is not UTF-8 is no word of a command.
fn words(rt: &(impl Env + AllocGlobal)) -> Result<Seq<Text>, Failure> {
    let mut words = Seq::empty(rt.alloc());
    let given = match env::args(rt) {
        Ok(given) => given,
        Err(error) if error.kind() == ErrorKind::OutOfMemory => return Err(Failure::NoMemory),
        Err(_) => return Err(Failure::Usage),
    };
    for word in given.skip(1) {
        let text = match Text::copy(rt.alloc(), word.as_bytes()) {
            Ok(text) => text,
            Err(_) => return Err(Failure::NoMemory),
        };
        match words.push(text) {
            Ok(()) => {}
            Err(_) => return Err(Failure::NoMemory),
        }
    }
    Ok(words)
}

fn main(rt: HostRuntime) -> ExitCode {
    let mut input = StdSource::new(rt.stdin());
    let mut output = StdSink::new(rt.stdout());
    let mut errors = StdSink::new(rt.stderr());
    let status = match words(&rt) {
        Ok(words) => run(rt.alloc(), &words, &mut input, &mut output, &mut errors),
        Err(failure) => report(&failure, &mut errors),
    };
    ExitCode::from(status.number())
}
