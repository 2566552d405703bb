// What the program has of the system besides its input and output: its words, the messages on standard
// error, and its status. Each program has this file, and no library has these functions: there they would
// be public and without a contract, as no contract can say what a descriptor gives or takes.
ghost use Rattle.std.specs.Prelude.{◌≤◌, length};

use std::env::{Env, FillError};
use std::fs::OpenOptions;
use std::io::{Error, Write};
use std::rt::{Files, Runtime};

// Where `./run` reads the status: descriptor 3.
const STATUS_FILE: &str = "/dev/fd/3";

// Whether there is a word i. Word 0 is the program's own name.
fn has_word(rt: &impl Env, i: usize) -> bool {
    !matches!(rt.arg(i, &mut [0u8; 1]), Err(FillError::NotPresent))
}

// How many words there are.
pub(crate) fn word_count(rt: &impl Env) -> usize {
    for i in 0..usize::MAX {
        if !has_word(rt, i) {
            return i;
        }
    }
    usize::MAX
}

// Word i, put at the start of a buffer; no bytes where there is none or it has more than the buffer.
pub(crate) fn word<'b>(rt: &impl Env, i: usize, buffer: &'b mut [u8]) -> &'b [u8]
    ensures { length result.now ≤ length buffer.old }
{
    let length = rt.arg(i, buffer).unwrap_or(0);
    buffer.get(..length).unwrap_or_default()
}

// Whether word i is this one, which has at most 16 bytes.
pub(crate) fn is_word(rt: &impl Env, i: usize, text: &[u8]) -> bool {
    word(rt, i, &mut [0u8; 16]) == text
}

// Says on standard error what failed, and why in the system's words. The library puts the error's number behind those; it is left out.
pub(crate) fn fail(rt: &impl Runtime, what: &str, error: Error) {
    let _ = match format!(in rt.alloc(); "{error}") {
        Ok(text) => match text.as_str().split_once(" (os error ") {
            Some((words, _)) => eprintln!(rt; "{what}: {words}"),
            None => eprintln!(rt; "{what}: {text}"),
        },
        Err(_) => eprintln!(rt; "{what}: {error}"),
    };
}

// Tells the status to `./run`.
pub(crate) fn tell_status(rt: &impl Files, status: u8) {
    let mut options = OpenOptions::new();
    options.append(true);
    if let Ok(mut file) = options.open(rt, STATUS_FILE) {
        let _ = write!(file, "{status}");
    }
}
