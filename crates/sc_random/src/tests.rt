//! Chains that are drawn, against a generator written apart from this crate after the published algorithm.

use super::*;
use std::alloc::{AllocError, Global};
use std::test::Fail;

/// The letters of the words of a chain, with a space behind each word.
fn spelled(alloc: Global, seed: u64, letters: u32) -> Result<Vec<u8>, AllocError> {
    let chain = drawn_chain(alloc, seed, letters.min(limits::MAX_LETTERS))?;
    let mut text = Vec::new(alloc);
    for (_, word) in chain.entries() {
        for letter in word.as_slice() {
            let first = if letter.inverse { b'A' } else { b'a' };
            text.push(first.saturating_add(letter.number))?;
        }
        text.push(b' ')?;
    }
    Ok(text)
}

#[test]
fn draws_the_published_words(rt: HostRuntime) -> Result<(), Fail> {
    let cases = [
        (5, 4, "AbbbaBABBBBababA bbabaBBBBAbA "),
        (0, 1, "BAba "),
        (1, 2, "AAbaaB BBabbA "),
        (5, 1, ""),
        (
            18_446_744_073_709_551_615,
            8,
            "AAABBBAAbABABABabbbaaaabababaB bAbbaBABBAAABBabbabABBaBBAbbaaab ",
        ),
    ];
    for (seed, letters, words) in cases {
        let text = spelled(rt.alloc(), seed, letters)?;
        assert_eq!(rt; text.as_slice(), words.as_bytes(), "{seed} {letters}");
    }
    Ok(())
}
