// The program that is run.
use cli_runs::given::Program;
use netlist_cli::run::run;
use nl_base::{Seq, Text};
use nl_io::{MemSink, MemSource};
use std::alloc::Global;

/// The program `netlist`.
pub struct Netlist;

impl Program for Netlist {
    fn run(
        alloc: Global,
        words: &Seq<Text>,
        input: &mut MemSource,
        output: &mut MemSink,
        errors: &mut MemSink,
    ) -> u8 {
        run(alloc, words, input, output, errors).number()
    }
}
