// The numbers of a line, each after exactly one space.
ghost use Rattle.std.specs.Prelude.{◌↔◌, IsTrue, MatchOption};
ghost use Rattle.lines.specs.Numbers.{IsFormed, NumberIn, NextIn, Lists, NoneOf};

use blocks::len_before;
use std::str::from_utf8;

// `N` numbers, and nothing after them.
pub fn numbers<const N: usize>(bytes: &[u8]) -> Option<[i64; N]>
    ensures { MatchOption result (NoneOf N bytes.now) (Lists bytes.now) }
{
    let mut found = [0; N];
    let mut rest = bytes;
    for place in found.iter_mut() {
        (*place, rest) = next_number(rest)?;
    }
    rest.is_empty().then_some(found)
}

// One number after a space, and what follows it: nothing, or the next space.
fn next_number(rest: &[u8]) -> Option<(i64, &[u8])>
    ensures { NextIn rest.now result }
{
    let [b' ', tail @ ..] = rest else {
        return None;
    };
    let (word, more) = tail.split_at(len_before(tail, b' '));
    Some((number(word)?, more))
}

// The number that a word writes in decimal.
fn number(word: &[u8]) -> Option<i64>
    ensures { NumberIn word.now result }
{
    if !is_formed(word) {
        return None;
    }
    from_utf8(word).ok()?.parse().ok()
}

// Whether a word may write a number of at most ten digits, as to its sign, its length and its first
// digit. `parse` also takes a `+`, leading zeros and `-0`.
fn is_formed(word: &[u8]) -> bool
    ensures { IsTrue result ↔ IsFormed word.now }
{
    match word {
        [b'+', ..] => false,
        [b'-', b'0', ..] => false,
        [b'0', _, ..] => false,
        [b'-', digits @ ..] => digits.len() <= 10,
        _ => word.len() <= 10,
    }
}
