//! An announcement of a swap, as it is sent.

/// A FIG 0/0 with change flags that was sent (EN 300 401 clause 6.4).
#[derive(Clone, Copy, Debug, PartialEq, Eq)]
pub struct Announcement {
    /// The CIF count of its frame, 0 to 4999.
    pub count: u16,
    /// The occurrence change: the low part of the CIF count of the swap, 0 to 249.
    pub occurrence: u8,
    /// The change flags, 1 to 3: 1 for the sub-channel organization, 2 for the service
    /// organization.
    pub change: u8,
}
