// Slices without preconditions: a word outside its slice reads as 0, and a part ends where its slice does.
ghost use Rattle.std.specs.Prelude.{◌≤◌};

use crate::lent::*;

// The lesser of two lengths.
pub fn least(a: usize, b: usize) -> usize
    ensures { result ≤ b }
{
    a.min(b)
}

pub fn word(s: &[u32], i: usize) -> usize {
    match s.get(i) {
        Some(x) => *x as usize,
        None => 0,
    }
}

// Every word from one index up to another is x.
pub fn all_are(s: &[u32], from: usize, to: usize, x: u32) -> bool {
    (from..to).all(|i| word(s, i) == x as usize)
}

// So many words or bytes from the start on.
pub fn first<T>(s: &[T], count: usize) -> &[T] {
    let end = least(count, s.len());
    &s[..end]
}

pub fn first_mut<T>(s: &mut [T], count: usize) -> &mut [T] {
    let end = least(count, s.len());
    &mut s[..end]
}

// The first words of two lists are the same.
pub fn same_words(a: &List, b: &List, count: usize) -> bool {
    first(a, count) == first(b, count)
}

pub fn same_bytes(a: &Files, b: &Files) -> bool {
    a == b
}

// So many bytes from an index on.
pub fn part(s: &[u8], from: usize, count: usize) -> &[u8] {
    let start = least(from, s.len());
    first(&s[start..], count)
}
