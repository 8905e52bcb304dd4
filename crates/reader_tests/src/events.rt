// The good events that the tests start from.
use std::test::Fail;

// Appends a zero-suppressed event of 104 bytes. Fibre 0 is at 0, fibre 1 at 11, fibre 2 at 18, and fibres 3 to 11
// stand seven bytes apart from 38 on.
pub(crate) fn push_suppressed(event: &mut Vec<u8>) -> Result<(), Fail> {
    // Common modes 100 and 300, strips 5 and 6.
    event.extend_from_slice(&[11, 0, 0xEA, 100, 0, 44, 1, 5, 2, 30, 40])?;
    // The smallest and the largest common mode.
    event.extend_from_slice(&[7, 0, 0xEA, 0, 0, 255, 3])?;
    // Strips 0, 3, 126 and 127, 128: as near to each other as they may be.
    event.extend_from_slice(&[20, 0, 0xEA, 1, 0, 2, 0])?;
    event.extend_from_slice(&[0, 1, 9, 3, 1, 255, 126, 2, 7, 8, 128, 1, 42])?;
    // By number: the fibre is the common mode.
    for fibre in 3..11u8 {
        event.extend_from_slice(&[7, 0, 0xEA, fibre, 0, 0, 0])?;
    }
    // The last strip.
    event.extend_from_slice(&[10, 0, 0xEA, 100, 0, 100, 0, 255, 1, 128])?;
    Ok(())
}

// The offsets of its records.
pub const SUPPRESSED_STARTS: [usize; 12] = [0, 11, 18, 38, 45, 52, 59, 66, 73, 80, 87, 94];

// Appends a raw event of 6180 bytes with a packet code: word i of fibre f is i + 256 (f mod 4), up to 1023.
pub(crate) fn push_raw(event: &mut Vec<u8>, code: u8) -> Result<(), Fail> {
    // By number: fibre and index make the word.
    for fibre in 0..12u8 {
        event.extend_from_slice(&[3, 2, code])?;
        for low in 0..=255u8 {
            event.extend_from_slice(&[low, fibre % 4])?;
        }
    }
    Ok(())
}

// The offsets of its records.
pub const RAW_STARTS: [usize; 12] = [
    0, 515, 1030, 1545, 2060, 2575, 3090, 3605, 4120, 4635, 5150, 5665,
];
