ghost use Rattle.std.specs.Prelude.{◌≡◌, ◌<◌, [], ◌++◌, min, length, take, drop, Ok, Some, IfOk};

use crate::source::{Failed, Source};
use std::marker::Model;

/// Bytes in memory, given out in as large pieces as there is room for. No read fails.
///
/// Contracts see the bytes that are left.
#[derive(Drop)]
pub struct PlainSource {
    bytes: Vec<u8>,
    position: usize,
}

impl Model for PlainSource {
    ghost use Rattle.std.specs.Prelude.{ℕ, ◌≤◌, List, drop, vec_len};

    ghost Value = { List ℕ };

    ghost view = { λ source. drop source.position source.bytes.items };

    ghost invariant = { λ source. source.position ≤ vec_len source.bytes };
}

impl PlainSource {
    /// A source of these bytes. It takes no memory.
    pub fn new(bytes: Vec<u8>) -> PlainSource
        ensures { result ≡ bytes.items }
    {
        PlainSource { bytes, position: 0 }
    }
}

impl Source for PlainSource {
    ghost left = { λ source. Some source };

    ghost faults = { λ _. 0 };

    fn read(&mut self, buffer: &mut [u8]) -> Result<usize, Failed>
        ensures count { result ≡ Ok (min (length buffer.old) (length self.old)) }
        ensures end { IfOk result (λ n. n ≡ 0 → 0 < length buffer.old → self.old ≡ []) }
        ensures rest { IfOk result (λ n. self.new ≡ drop n self.old) }
        ensures filled { IfOk result (λ n. buffer.new ≡ take n self.old ++ drop n buffer.old) }
    {
        let left = &self.bytes[self.position..];
        let count = left.len().min(buffer.len());
        buffer[..count].copy_from_slice(&left[..count]);
        self.position += count;
        Ok(count)
    }
}
