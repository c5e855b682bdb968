// The original names of ports.
use crate::given::source_of;
use edif_keywords::Cursor;
use edif_names::{PortName, port_original, read_port_name};
use edif_tokens::Tokens;
use nl_base::Range;
use nl_io::MemSource;
use std::alloc::Global;
use std::test::Fail;

/// Whether a range, if any, has these bounds.
fn are_bits(range: Option<Range>, bounds: Option<(i32, i32)>) -> bool {
    match range {
        Some(range) => bounds == Some((range.left, range.right)),
        None => bounds.is_none(),
    }
}

/// Whether a port whose size, if any, is from 1 to 65,536 bits has this original name and range.
fn is_named(name: &PortName, base: &[u8], range: Option<(i32, i32)>) -> bool {
    if let PortName::Array(_, size) = name {
        if size.value() < 1 || size.value() > 65536 {
            return false;
        }
    }
    let (original, bits) = port_original(name);
    original == base && are_bits(bits, range)
}

/// Whether the text begins with the name of a port of this original name and range.
fn reads_port_name(
    alloc: Global,
    source: &mut MemSource,
    base: &[u8],
    range: Option<(i32, i32)>,
) -> bool {
    let Ok(tokens) = Tokens::new(alloc) else {
        return false;
    };
    let mut cursor = Cursor::new(alloc, tokens);
    match read_port_name(alloc, &mut cursor, source) {
        Ok(read) => is_named(&read, base, range),
        Err(_) => false,
    }
}

#[test]
fn ports_have_original_names(rt: HostRuntime) -> Result<(), Fail> {
    for (text, base, range) in [
        (
            b"(array (rename q \"q[3:0]\") 4)".as_slice(),
            b"q".as_slice(),
            Some((3, 0)),
        ),
        (b"(array (rename q \"q[4:0]\") 4)", b"q[4:0]", Some((3, 0))),
        (b"(array q 4)", b"q", Some((3, 0))),
        (b"(rename q \"q[3:0]\")", b"q[3:0]", None),
        (b"clk)", b"clk", None),
    ] {
        let mut source = source_of(rt.alloc(), text)?;
        assert!(rt; reads_port_name(rt.alloc(), &mut source, base, range));
    }
    Ok(())
}
