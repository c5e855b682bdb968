// What the tests give to a reader.
use nl_io::MemSource;
use std::alloc::Global;
use std::test::Fail;

/// A text as a source, in one piece.
pub fn source_of(alloc: Global, text: &[u8]) -> Result<MemSource, Fail> {
    let pieces = vec![in alloc; Vec::from_slice(alloc, text)?]?;
    Ok(MemSource::new(pieces, Vec::new(alloc)))
}

/// A text as a source, byte by byte.
pub fn source_of_bytes(alloc: Global, text: &[u8]) -> Result<MemSource, Fail> {
    let mut pieces = Vec::new(alloc);
    for byte in text {
        pieces.push(vec![in alloc; *byte; 1]?)?;
    }
    Ok(MemSource::new(pieces, Vec::new(alloc)))
}

/// Texts behind one another as a source, a piece each.
pub fn source_of_pieces(alloc: Global, texts: &[&[u8]]) -> Result<MemSource, Fail> {
    let mut pieces = Vec::new(alloc);
    for text in texts {
        pieces.push(Vec::from_slice(alloc, *text)?)?;
    }
    Ok(MemSource::new(pieces, Vec::new(alloc)))
}
