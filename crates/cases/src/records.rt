use std::alloc::{AllocError, Global};

// Carriers and cells are two lists, as in the record.
/// The bytes of a record: the header, the carrier numbers, the cells.
pub(crate) fn record(
    heap: Global,
    header: [u16; 4],
    carriers: &[u8],
    cells: &[u16],
) -> Result<Vec<u8>, AllocError> {
    let mut bytes = Vec::new(heap);
    for number in header {
        bytes.extend_from_slice(&number.to_le_bytes())?;
    }
    bytes.extend_from_slice(carriers)?;
    for cell in cells {
        bytes.extend_from_slice(&cell.to_le_bytes())?;
    }
    Ok(bytes)
}
