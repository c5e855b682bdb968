// What the tests give to a reader.
use nl_io::MemSource;
use std::alloc::Global;
use std::test::Fail;

/// A text as a source, in one piece.
pub fn source_of(alloc: Global, text: &[u8]) -> Result<MemSource, Fail> {
    let pieces = vec![in alloc; Vec::from_slice(alloc, text)?]?;
    Ok(MemSource::new(pieces, Vec::new(alloc)))
}

/// Two texts behind one another as a source.
pub fn source_of_two(alloc: Global, first: &[u8], second: &[u8]) -> Result<MemSource, Fail> {
    let mut text = Vec::from_slice(alloc, first)?;
    text.extend_from_slice(second)?;
    let pieces = vec![in alloc; text]?;
    Ok(MemSource::new(pieces, Vec::new(alloc)))
}
