//! A buffer of bytes, stored inline, without allocation.

ghost use Rattle.std.specs.Prelude.{◌≡◌, ◌+◌, ◌<◌, ◌≤◌, [], ◌++◌, length, take, drop, true, false};

use std::marker::Model;

/// Up to `N` bytes, in the order in which they were appended. Clearing it only resets the length.
#[derive(Drop)]
pub struct Bytes<const N: usize> {
    pub(crate) bytes: [u8; N],
    pub(crate) len: usize,
}

impl<const N: usize> Model for Bytes<N> {
    ghost use Rattle.std.specs.Prelude.{ℕ, List, ◌≡◌, ◌≤◌, length, take};

    ghost Value = { List ℕ };

    ghost view = { λ b. take b.len b.bytes };

    ghost invariant = { λ b. (b.len ≤ N) × (length b.bytes ≡ N) };
}

/// Overwrites the bytes at an offset.
fn write_at(bytes: &mut [u8], offset: usize, piece: &[u8])
    requires { offset + length piece.now ≤ length bytes.old }
    ensures { bytes.new ≡ take offset bytes.old
        ++ (piece.now ++ drop (offset + length piece.now) bytes.old) }
{
    bytes[offset..offset + piece.len()].copy_from_slice(piece);
}

impl<const N: usize> Bytes<N> {
    /// An empty buffer.
    pub fn new() -> Self
        ensures { result ≡ [] }
    {
        Bytes {
            bytes: [0; N],
            len: 0,
        }
    }

    /// The number of bytes held.
    pub fn len(&self) -> usize
        ensures value { result ≡ length self.now }
        ensures bound { result ≤ N }
    {
        self.len
    }

    /// Whether there is no room left.
    pub fn is_full(&self) -> bool
        ensures room { result ≡ false → length self.now < N }
        ensures full { result ≡ true → length self.now ≡ N }
    {
        self.len == N
    }

    /// The bytes held.
    pub fn as_slice(&self) -> &[u8]
        ensures { result.now ≡ self.now }
    {
        &self.bytes[..self.len]
    }

    /// Whether there is room for this many more bytes.
    pub fn has_room(&self, count: usize) -> bool
        ensures room { result ≡ true → length self.now + count ≤ N }
        ensures none { result ≡ false → N < length self.now + count }
    {
        count <= N - self.len
    }

    /// Appends these bytes, for which there must be room.
    pub fn append(&mut self, bytes: &[u8])
        requires { length self.old + length bytes.now ≤ N }
        ensures { self.new ≡ self.old ++ bytes.now }
    {
        write_at(&mut self.bytes, self.len, bytes);
        self.len += bytes.len();
    }

    /// Appends as many of these bytes as there is room for, and returns their number.
    pub fn fill(&mut self, bytes: &[u8]) -> usize
        ensures taken { self.new ≡ self.old ++ take result bytes.now }
        ensures bound { result ≤ length bytes.now }
        ensures some { length self.old < N → 0 < length bytes.now → 1 ≤ result }
    {
        let count = bytes.len().min(N - self.len);
        self.append(&bytes[..count]);
        count
    }

    /// Removes the first `count` bytes and moves the others to the front.
    pub fn release(&mut self, count: usize)
        requires { count ≤ length self.old }
        ensures { self.new ≡ drop count self.old }
    {
        self.bytes.copy_within(count..self.len, 0);
        self.len -= count;
    }

    /// Removes all bytes.
    pub fn clear(&mut self)
        ensures { self.new ≡ [] }
    {
        self.len = 0;
    }
}
