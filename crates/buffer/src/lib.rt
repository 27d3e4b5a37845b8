// Bytes in a fixed place, of which the first are filled: what comes is put behind them, and what is done with leaves from the front.
#![tactic(auto)]

ghost use Rattle.std.specs.Prelude.{◌≡◌, ℕ, List, [], ◌∷◌, ◌++◌, ◌+◌, ◌≤◌, ◌<◌, ◌-◌, length, take, drop, replicate};

use std::marker::Model;

// At most `N` bytes, and how many of the place they fill. Its value is the bytes: behind them the place has zeros, so that they determine all of it.
#[derive(Drop)]
pub struct Buffer<const N: usize> {
    bytes: [u8; N],
    len: usize,
}

impl<const N: usize> Model for Buffer<N> {
    ghost Value = { List ℕ };

    ghost view = { λ s. take s.len s.bytes };

    ghost invariant = { λ s. (s.len ≤ N) × (drop s.len s.bytes ≡ replicate (N - s.len) 0) };
}

impl<const N: usize> Buffer<N> {
    // One with no bytes.
    pub fn new() -> Self
        ensures { result ≡ [] }
    {
        Buffer {
            bytes: [0; N],
            len: 0,
        }
    }

    // How many bytes it has: never more than its place.
    pub fn len(&self) -> usize
        ensures value { result ≡ length self.now }
        ensures room { result ≤ N }
    {
        self.len
    }

    // Its bytes.
    pub fn as_slice(&self) -> &[u8]
        ensures { result.now ≡ self.now }
    {
        &self.bytes[..self.len]
    }

    // All bytes leave.
    pub fn clear(&mut self)
        ensures { self.new ≡ [] }
    {
        self.bytes[..self.len].fill(0);
        self.len = 0;
    }

    // One byte more.
    pub fn push(&mut self, byte: u8)
        requires { length self.old < N }
        ensures { self.new ≡ self.old ++ byte ∷ [] }
    {
        self.bytes[self.len] = byte;
        self.len += 1;
    }

    // The bytes of another text behind its own.
    pub fn extend(&mut self, bytes: &[u8])
        requires { length self.old + length bytes.now ≤ N }
        ensures { self.new ≡ self.old ++ bytes.now }
    {
        let free = &mut self.bytes[..];
        let end = self.len + bytes.len();
        free[self.len..end].copy_from_slice(bytes);
        self.len = end;
    }

    // Its first `k` bytes leave, and the others move to the front.
    pub fn drop_front(&mut self, k: usize)
        requires { k ≤ length self.old }
        ensures { self.new ≡ drop k self.old }
    {
        let held = self.len - k;
        self.bytes.copy_within(k..self.len, 0);
        let place = &mut self.bytes[..];
        place[held..self.len].fill(0);
        self.len = held;
    }
}
