use std::alloc::{AllocError, Global};
use table::check::check;

/// A form code and its four words.
pub type Row = [u16; 5];

/// The lodge table: units are fed by posts, and a unit that feeds a lodge is metered.
pub const LODGE: [Row; 7] = [
    [4, 2, 2, 2, 3],
    [8, 3, 0, 4, 0],
    [2, 0, 1, 0, 0],
    [6, 1, 2, 5, 0],
    [6, 0, 5, 6, 0],
    [11, 2, 0, 0, 0],
    [11, 3, 0, 0, 0],
];

/// One word, low byte first.
fn put(bytes: &mut Vec<u8>, word: u16) -> Result<(), AllocError> {
    bytes.extend_from_slice(&word.to_le_bytes())
}

/// The bytes of a table that may break every rule.
pub(crate) fn encoded(heap: Global, sizes: [u16; 4], rows: &[Row]) -> Result<Vec<u8>, AllocError> {
    let mut bytes = Vec::new(heap);
    for size in sizes {
        put(&mut bytes, size)?;
    }
    for row in rows {
        put(&mut bytes, row[0])?;
    }
    for row in rows {
        for word in &row[1..] {
            put(&mut bytes, *word)?;
        }
    }
    Ok(bytes)
}

/// Number and place of the refusal, if there is one.
pub(crate) fn answer(bytes: &[u8]) -> Option<(u8, u8)> {
    check(bytes)
        .err()
        .map(|refusal| (refusal.number(), refusal.place()))
}
