// Files that are read, and what is written of them.
use crate::given::source_of;
use crate::texts::{ESCAPES, ESCAPES_WRITTEN, MODULE, MODULE_WRITTEN, PARTS, PARTS_WRITTEN};
use nl_io::{MemSink, MemSource};
use std::alloc::Global;
use std::test::Fail;
use vlog_modules::read_vlog;
use vlog_values::{Module, vlog_size};
use vlog_writer::write_vlog;

/// The size of the file that a text is.
fn size_of(alloc: Global, source: &mut MemSource) -> Option<u64> {
    match read_vlog(alloc, source) {
        Ok(file) => Some(vlog_size(&file)),
        Err(_) => None,
    }
}

#[test]
fn files_have_a_size(rt: HostRuntime) -> Result<(), Fail> {
    for (text, size) in [
        (b"".as_slice(), Some(0)),
        (b"module m; endmodule", Some(1)),
        (b"module m; assign y = {a[0], 2{b}}; endmodule", None),
        (
            b"module m (input [1:0] a, b, output y); assign y = {a[0], {2{b}}}; endmodule",
            Some(11),
        ),
        (
            b"(* k *) module m #(parameter A = 1, B = 2, parameter real C = 1.5) (x, y); L u (.a(x), .b()), v (x, ), w (); endmodule",
            Some(17),
        ),
        (
            b"module L (); endmodule module m (); L #(.A(1)) u (); defparam u.A = 2; endmodule",
            Some(7),
        ),
    ] {
        let mut source = source_of(rt.alloc(), text)?;
        assert_eq!(rt; size_of(rt.alloc(), &mut source), size);
    }
    Ok(())
}

/// In how many modules names are nets without a declaration.
fn count_implicit(modules: &[Module]) -> u64 {
    let mut count: u64 = 0;
    for module in modules {
        if module.implicit {
            count = count.saturating_add(1);
        }
    }
    count
}

/// In how many modules of a text names are nets without a declaration.
fn implicit_in(alloc: Global, source: &mut MemSource) -> Option<u64> {
    match read_vlog(alloc, source) {
        Ok(file) => Some(count_implicit(file.modules.items())),
        Err(_) => None,
    }
}

#[test]
fn directives_say_which_names_are_nets(rt: HostRuntime) -> Result<(), Fail> {
    for (text, count) in [
        (b"module a; endmodule".as_slice(), 1),
        (
            b"`default_nettype none\nmodule a; endmodule module b; endmodule",
            0,
        ),
        (
            b"`default_nettype none\nmodule a; endmodule\n`resetall\nmodule b; endmodule",
            1,
        ),
        (
            b"`default_nettype \\none \nmodule a; endmodule\n`default_nettype wire\nmodule b; endmodule module c; endmodule",
            2,
        ),
    ] {
        let mut source = source_of(rt.alloc(), text)?;
        assert_eq!(rt; implicit_in(rt.alloc(), &mut source), Some(count));
    }
    Ok(())
}

/// Whether a text is a file that the sink takes whole.
fn goes(alloc: Global, source: &mut MemSource, sink: &mut MemSink) -> bool {
    match read_vlog(alloc, source) {
        Ok(file) => match write_vlog(&file, sink) {
            Ok(()) => true,
            Err(_) => false,
        },
        Err(_) => false,
    }
}

/// What a sink of so much room takes of the file that a text is: whether all went well, and whether it took these bytes.
fn writes(alloc: Global, text: &[u8], room: usize, taken: &[u8]) -> Result<(bool, bool), Fail> {
    let mut source = source_of(alloc, text)?;
    let room = vec![in alloc; 0; room]?;
    let mut sink = MemSink::new(room, Vec::new(alloc));
    let goes = goes(alloc, &mut source, &mut sink);
    Ok((goes, sink.taken() == taken))
}

#[test]
fn files_are_written(rt: HostRuntime) -> Result<(), Fail> {
    for (text, written) in [
        (MODULE, MODULE_WRITTEN),
        (MODULE_WRITTEN, MODULE_WRITTEN),
        (PARTS, PARTS_WRITTEN),
        (PARTS_WRITTEN, PARTS_WRITTEN),
        (ESCAPES, ESCAPES_WRITTEN),
        (ESCAPES_WRITTEN, ESCAPES_WRITTEN),
    ] {
        let ends = writes(rt.alloc(), text, 1000, written)?;
        assert_eq!(rt; ends, (true, true));
    }
    Ok(())
}

#[test]
fn full_sink_takes_a_front(rt: HostRuntime) -> Result<(), Fail> {
    let ends = writes(rt.alloc(), MODULE, 9, b"module m ")?;
    assert_eq!(rt; ends, (false, true));
    Ok(())
}
