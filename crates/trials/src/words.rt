//! Reads the words of a case.

use anyhow::ensure;
use std::alloc::Global;

// Capital letters are no digits of a case.
fn is_digit(letter: u8) -> bool {
    matches!(letter, b'0'..=b'9' | b'a'..=b'f')
}

fn byte_of(pair: &[u8]) -> anyhow::Result<u8> {
    Ok(u8::from_str_radix(str::from_utf8(pair)?, 16)?)
}

/// The bytes that a word spells, two digits each; `-` spells none.
pub fn bytes_of(heap: Global, word: &str) -> anyhow::Result<Vec<u8>> {
    let digits = if word == "-" { "" } else { word };
    ensure!(digits.bytes().all(is_digit), "a letter that is no digit");
    ensure!(digits.len() % 2 == 0, "half a byte");
    digits
        .as_bytes()
        .chunks_exact(2)
        .map(byte_of)
        .try_collect(heap)
}

pub fn numbers_of(heap: Global, words: &[&str]) -> anyhow::Result<Vec<usize>> {
    words
        .iter()
        .map(|word| -> anyhow::Result<usize> { Ok(word.parse()?) })
        .try_collect(heap)
}
