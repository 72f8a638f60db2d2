//! The largest code file: as many configurations, labels and instructions as possible, each as long
//! as possible.

use plan_code::{Code, decode, encode};
use std::alloc::{AllocError, Global};
use std::test::Fail;

/// The header of a file in mode IV with 256 configurations, 1,024 labels and 4,096 instructions.
const HEADER: [u8; 17] = [
    0x44, 0x41, 0x42, 0x50, 0x02, 0x04, 0xE1, 0xC5, 0x04, 0x18, 0x14, 0x01, 0x00, 0x04, 0x00, 0x10,
    0x00,
];

/// Appends 64 services with 16-bit SIds, each with 12 components.
fn append_services(bytes: &mut Vec<u8>) -> Result<(), AllocError> {
    for id in 0..64 {
        bytes.extend_from_slice(&[0x00, 0xC2, id, 12])?;
        for sub in 0..12 {
            bytes.extend_from_slice(&[0x00, 63, sub])?;
        }
    }
    Ok(())
}

/// The longest record: 64 sub-channels, 64 services and 64 packet components.
fn longest_record(alloc: Global) -> Result<Vec<u8>, AllocError> {
    let mut bytes = [64, 64, 64].to_vec(alloc)?;
    for id in 0..64 {
        bytes.extend_from_slice(&[id, 0x00, id, 0x00, 3, 0x00, 8])?;
    }
    append_services(&mut bytes)?;
    for id in 0..64 {
        bytes.extend_from_slice(&[0x00, id, 0x01, 60, id, 0x03, 0xFF])?;
    }
    Ok(bytes)
}

/// Appends 256 such records.
fn append_records(bytes: &mut Vec<u8>, record: &[u8]) -> Result<(), AllocError> {
    for _ in 0..256u16 {
        bytes.extend_from_slice(record)?;
    }
    Ok(())
}

/// Appends 1,024 labels.
fn append_labels(bytes: &mut Vec<u8>) -> Result<(), AllocError> {
    for pc in 0..1024u16 {
        bytes.extend_from_slice(&pc.to_be_bytes())?;
        bytes.extend_from_slice(&[
            0x00, 0xFF, 0x00, 0xFF, 0x00, 0x00, 0x00, 0x00, 0x00, 0xFF, 0xFF,
        ])?;
    }
    Ok(())
}

/// Appends 4,096 of the longest instructions: each adds a component to a service with a 32-bit SId.
fn append_lines(bytes: &mut Vec<u8>) -> Result<(), AllocError> {
    for number in 0..4096u16 {
        bytes.extend_from_slice(&number.to_be_bytes())?;
        bytes.extend_from_slice(&[0x16, 0x01, 0xE1, 0xE0, 0xC2, 0x21, 0x03, 0x0F, 0xFF])?;
    }
    Ok(())
}

/// The largest file.
fn largest_file(alloc: Global) -> Result<Vec<u8>, AllocError> {
    let record = longest_record(alloc)?;
    let mut file = HEADER.to_vec(alloc)?;
    append_records(&mut file, &record)?;
    append_labels(&mut file)?;
    append_lines(&mut file)?;
    Ok(file)
}

/// The numbers of configurations, labels and instructions of a code.
fn sizes(code: &Code) -> (usize, usize, usize) {
    (
        code.configs().len(),
        code.labels().len(),
        code.lines().len(),
    )
}

#[test]
fn the_largest_file_is_read_and_written_back(rt: HostRuntime) -> Result<(), Fail> {
    let file = largest_file(rt.alloc())?;
    assert_eq!(rt; file.len(), 943_889);
    let code = decode(rt.alloc(), &file)?;
    assert_eq!(rt; sizes(&code), (256, 1024, 4096));
    assert!(rt; encode(rt.alloc(), &code)? == file);
    Ok(())
}
