// Reads cases from standard input, a line each, and prints an answer line for each. What is wrong with
// a run is said on standard error, and its status is told to `./run` if that asks for it.
#![tactic(auto)]

mod answer;
mod arrivals;
mod checks;
mod digits;
mod events;
mod fields;
mod images;
mod input;
mod lists;
mod lone;
mod maps;
mod output;
mod packing;
mod room;
mod rows;
mod stop;
mod system;
mod values;
mod words;

use answer::answer;
use input::Lines;
use output::Output;
use std::io;
use std::io::Write;
use std::rt::Runtime;
use system::{fail, is_word, tell_status, word_count};

// How the program is used.
const USAGE: &str = "usage: cases < LINES\n\
    Answers test cases, a line for each line of standard input. docs/CASES.md tells the lines.\n\
    Status: 0 if every line was answered, refusals and `bad` among the answers, else 2.\n";

// Whether every line was answered, or not.
#[derive(Clone, Copy)]
enum Status {
    Answered = 0,
    Failed = 2,
}

// The longest line, and the longest room that a line may ask for.
const MOST_LINE: usize = 262144;

const MOST_ROOM: usize = 262144;

// How many bytes are read at once, and how many are written.
const BLOCK: usize = 65536;

// Answers every line. Where the input cannot be read that is said, and the lines before are answered. A
// proved loop has to end, and nothing says that the input does: so the turns are counted, up to a
// number that no run reaches.
fn answer_all(
    rt: &impl Runtime,
    lines: &mut Lines<'_, impl io::Read + Drop>,
    out: &mut impl Write,
) -> io::Result<Status> {
    let mut buffer = [0u8; MOST_LINE];
    let mut room = [0u8; MOST_ROOM];
    for _ in 0..u64::MAX {
        match lines.next_line(&mut buffer) {
            Ok(Some(line)) => answer(line, &mut room, out)?,
            Ok(None) => break,
            Err(error) => {
                fail(rt, "cases: standard input cannot be read", error);
                out.flush()?;
                return Ok(Status::Failed);
            }
        }
    }
    out.flush()?;
    Ok(Status::Answered)
}

// The status of what was printed, all of it or not.
fn status_of(rt: &impl Runtime, printed: io::Result<Status>) -> Status {
    match printed {
        Ok(status) => status,
        Err(error) => {
            fail(rt, "cases: standard output cannot be written", error);
            Status::Failed
        }
    }
}

fn answer_input(rt: &impl Runtime) -> Status {
    let mut block = [0u8; BLOCK];
    let mut waiting = [0u8; BLOCK];
    let mut lines = Lines::new(rt.reader(), &mut block);
    let mut out = Output::new(rt, &mut waiting);
    let answered = answer_all(rt, &mut lines, &mut out);
    status_of(rt, answered)
}

// Does what the words behind the first `before` ask for.
fn run(rt: &impl Runtime, before: usize) -> Status {
    let count = word_count(rt);
    if count <= before {
        return answer_input(rt);
    }
    if count - before == 1 && is_word(rt, before, b"--help") {
        return status_of(rt, rt.print(USAGE).map(|_| Status::Answered));
    }
    let _ = rt.eprint("cases: no word is taken\n");
    let _ = rt.eprint(USAGE);
    Status::Failed
}

fn main(rt: HostRuntime) {
    if !is_word(&rt, 1, b"--tell-status") {
        run(&rt, 1);
        return;
    }
    let status = run(&rt, 2);
    tell_status(&rt, status as u8);
}
