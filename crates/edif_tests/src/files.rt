// Files that are read, and what is written of them.
use crate::given::source_of;
use crate::texts::{ALIASED, PARTS, PARTS_WRITTEN, SMALL, SMALL_WRITTEN, TREES};
use edif_library::{edif_size, read_edif};
use edif_writer::write_edif;
use nl_io::{MemSink, MemSource};
use std::alloc::Global;
use std::test::Fail;

/// The size of the file that a text is.
fn size_of(alloc: Global, source: &mut MemSource) -> Option<u64> {
    match read_edif(alloc, source) {
        Ok(file) => Some(edif_size(&file)),
        Err(_) => None,
    }
}

#[test]
fn files_have_a_size(rt: HostRuntime) -> Result<(), Fail> {
    for (text, size) in [
        (SMALL, Some(4)),
        (ALIASED, Some(4)),
        (TREES, Some(9)),
        (b"(edi".as_slice(), None),
    ] {
        let mut source = source_of(rt.alloc(), text)?;
        assert_eq!(rt; size_of(rt.alloc(), &mut source), size);
    }
    Ok(())
}

/// Whether a text is a file that the sink takes whole.
fn goes(alloc: Global, source: &mut MemSource, sink: &mut MemSink) -> bool {
    match read_edif(alloc, source) {
        Ok(file) => match write_edif(&file, sink) {
            Ok(()) => true,
            Err(_) => false,
        },
        Err(_) => false,
    }
}

/// What a sink of so much room takes of the file that a text is: whether all went well, and whether it took these bytes.
fn writes(alloc: Global, text: &[u8], room: usize, taken: &[u8]) -> Result<(bool, bool), Fail> {
    let mut source = source_of(alloc, text)?;
    let room = vec![in alloc; 0; room]?;
    let mut sink = MemSink::new(room, Vec::new(alloc));
    let goes = goes(alloc, &mut source, &mut sink);
    Ok((goes, sink.taken() == taken))
}

#[test]
fn files_are_written(rt: HostRuntime) -> Result<(), Fail> {
    for (text, written) in [
        (SMALL, SMALL_WRITTEN),
        (ALIASED, SMALL_WRITTEN),
        (PARTS, PARTS_WRITTEN),
        (PARTS_WRITTEN, PARTS_WRITTEN),
    ] {
        let ends = writes(rt.alloc(), text, 4000, written)?;
        assert_eq!(rt; ends, (true, true));
    }
    Ok(())
}

#[test]
fn full_sink_takes_a_front(rt: HostRuntime) -> Result<(), Fail> {
    let ends = writes(rt.alloc(), SMALL, 10, b"(edif a\n  ")?;
    assert_eq!(rt; ends, (false, true));
    Ok(())
}
