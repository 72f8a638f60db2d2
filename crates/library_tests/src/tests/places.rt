//! The offsets of faults, which no command shows.

use super::fibs::fib_of;
use fib_reader::{FibFault, check};
use std::test::Fail;

/// The first fault of the FIB with these data bytes.
fn fault_in(data: &[u8]) -> Option<FibFault> {
    fault_of(&fib_of(data))
}

/// The first fault of a FIB.
fn fault_of(fib: &[u8; 32]) -> Option<FibFault> {
    check(fib).err()
}

#[test]
fn a_fault_is_placed_at_its_header_or_its_entry(rt: HostRuntime) -> Result<(), Fail> {
    let rows: [(&[u8], Option<FibFault>); 8] = [
        (&[0x00], Some(FibFault::Entry(0))),
        (&[0x01, 0x00, 0xFF], Some(FibFault::Entry(2))),
        (&[0x1F, 0x01], Some(FibFault::Overrun(0))),
        (&[0x20, 0x3D], Some(FibFault::Overrun(1))),
        (
            &[0x04, 0x01, 0x04, 0x00, 0x88, 0xFF],
            Some(FibFault::Entry(2)),
        ),
        (
            &[0x05, 0x00, 0xE1, 0xC5, 0x14, 0x00, 0xFF],
            Some(FibFault::Entry(2)),
        ),
        (&[0x04, 0x01, 0x04, 0x00, 0x05, 0xFF], None),
        (&[0xFF, 0x55], None),
    ];
    for (data, fault) in rows {
        assert_eq!(rt; fault_in(data), fault);
    }
    Ok(())
}

/// Puts this byte at an index of the data bytes.
fn put(data: &mut [u8; 30], place: usize, byte: u8) {
    if let Some(there) = data.get_mut(place) {
        *there = byte;
    }
}

#[test]
fn a_fig_0_0_is_one_entry_with_a_count_in_range(rt: HostRuntime) -> Result<(), Fail> {
    let rows: [(&[u8], Option<FibFault>); 6] = [
        (&[0x05, 0x00, 0xE1, 0xC5, 0x13, 0xF9, 0xFF], None),
        (
            &[0x05, 0x00, 0xE1, 0xC5, 0x00, 0xFA, 0xFF],
            Some(FibFault::Entry(2)),
        ),
        (
            &[0x05, 0x00, 0xE1, 0xC5, 0x54, 0x00, 0xFF],
            Some(FibFault::Entry(2)),
        ),
        (
            &[0x22, 0x00, 0x00, 0x01, 0x00, 0xFF],
            Some(FibFault::Entry(5)),
        ),
        // two entries, and flags without an occurrence change
        (
            &[
                0x09, 0x00, 0xE1, 0xC5, 0x00, 0x00, 0xE1, 0xC5, 0x00, 0x04, 0xFF,
            ],
            Some(FibFault::Entry(6)),
        ),
        (
            &[0x05, 0x00, 0xE1, 0xC5, 0x40, 0x00, 0xFF],
            Some(FibFault::Entry(2)),
        ),
    ];
    for (data, fault) in rows {
        assert_eq!(rt; fault_in(data), fault);
    }
    // FIG 0/0 without an entry, at the end of the data
    let mut last = [0u8; 30];
    put(&mut last, 0, 0x3B);
    put(&mut last, 28, 0x01);
    assert_eq!(rt; fault_in(&last), Some(FibFault::Entry(30)));
    Ok(())
}
