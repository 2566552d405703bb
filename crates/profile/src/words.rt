// The words that the program was given.
ghost use Rattle.std.specs.Prelude.{◌≡◌};
ghost use Rattle.profile.specs.Words.{asked_by};

use crate::system::{word, word_count};
use std::env::Env;
use value::Dialect;

// What the words ask for: a map read in a dialect, by its name; by the letter of document 01, as no dialect was named; or how the
// program is used.
#[derive(Drop)]
pub(crate) enum Asked {
    For(Dialect),
    Letter,
    Help,
    Unknown,
}

// By `==` and not by a match, which leaves a goal for each byte that may differ.
#[tactic(auto, using(crate::proofs::Sames::compared), unfolding(crate::specs::Words::asked_by))]
fn asked_by(word: &[u8]) -> Asked
    ensures { result ≡ asked_by word.now }
{
    if word == b"document".as_slice() {
        return Asked::For(Dialect::Document);
    }
    if word == b"mysql".as_slice() {
        return Asked::For(Dialect::Mysql);
    }
    if word == b"mariadb".as_slice() {
        return Asked::For(Dialect::Mariadb);
    }
    if word == b"--help".as_slice() {
        return Asked::Help;
    }
    Asked::Unknown
}

// What the words behind the first `before` ask for.
pub(crate) fn asked_behind(rt: &impl Env, before: usize) -> Asked {
    let count = word_count(rt);
    if count <= before {
        return Asked::Letter;
    }
    if 1 < count - before {
        return Asked::Unknown;
    }
    asked_by(word(rt, before, &mut [0u8; 16]))
}
