// What the program `netlist` does, over any source and any sinks.
//
// `format` reads an EDIF 2 0 0 text from the input and writes the same file in the project's own layout to the output; `vformat` does so
// for structural Verilog (IEEE 1364-2005).
//
// The other commands ask for the design of the input: that of an EDIF text, or, with `--top NAME`, that of a Verilog text under the module
// of this name. They write exactly where the file breaks no rule, its design is within the limit of 33,554,432 units, and what the command
// asks of a design holds. `check` writes `ok`. `report` asks for a flat count of at most 2,000,000 and writes the report of a design that
// says what the file says, where the cells of the words stand for the constants; `lint` does so for what is odd about its connections.
// `to-verilog {--parameter NAME}` asks for the rules of Verilog as a target, where these are the names of parameters; what is written is
// the text of modules that break no rule; whatever its length it spells these modules, and each design that says what they say is the same
// as the design of the EDIF file, cell by cell, and so as a whole, whichever cells stand for the constants. `to-edif --top NAME` asks
// nothing of a design; what is written is the text of an EDIF file that breaks no rule; whatever its length it spells this file, and each
// design that says what the file says is the same as the design of the modules, cell by cell, and so as a whole, where the cells of the
// words stand for the constants. `flatten` asks for a flat count of at most 2,000,000 and for the rules of flattened designs, and for Verilog
// for those of the target; what is written is, in the language that was read, the text of a file that breaks no rule, and each design that
// says what that file says is the design as one cell of leaf instances. `to-spice` asks for the rules of SPICE; what is written is the text of subcircuits, one for each cell in the
// order of the design, which reads as these subcircuits; the design that they say has the same cells without instances and the same port bits
// of these and of the top, and connects the same of them.
//
// `generate SEED CELLS` reads nothing, and ends with its work done, by a failure of the output or for want of memory. What is written is the
// line of the file that is generated of these numbers (crates `vectors` and `vectors_line`): the file's own text is read again, and the design
// that it says is translated.
//
// `run` does what the words ask for: it reads the input to its end or to its first fault, and writes nothing before all is known. The design
// of the input and a file that was written are never dropped, since a process ends after its run and gives back all memory at once. The
// contract of `run` says for each status when it comes and what was written then:
//
// 0 done: what the command makes of the input was put. 1 text fault: the input has this first fault, and the line `fault LINE:COLUMN REASON`
// tells it. 2 refused: the file breaks a rule, of its language or of what is asked for, and the line `refused RULE CELL` with further names
// tells the first object that breaks the lowest broken rule. 3 read fault and 4 write fault: the input or the output failed. 5 usage: the
// words ask for no command (crate `netlist_words`), and nothing is read. 6 no memory: it may come at any time before the first byte is
// written; `to-verilog` and `flatten` also answer it where the names or values of a design are not within their limits, which is asked for
// sources that do not tell their bytes. 7 limit: the input is longer than 268,435,456 bytes and has no fault within them, the design has too many units, or its
// flat count is too large.
#![tactic(auto)]

pub mod checking;
pub mod designs;
pub mod failure;
pub mod flattening;
pub mod formatting;
pub mod generating;
pub mod judging;
pub mod laws;
pub mod line;
pub mod linting;
pub mod reporting;
pub mod retranslating;
pub mod run;
pub mod status;
pub mod subcircuits;
pub mod tools;
pub mod translating;
