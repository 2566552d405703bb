// Reads the body of a table map event from standard input, checks it, and prints a line for each
// column: place, real type, flags, m0, m1, charset. A refusal prints its number and its place. A word
// chooses the dialect. What is wrong with a run is said on standard error, and its status is told to
// `./run` if that asks for it.
#![tactic(auto)]

mod input;
mod output;
mod system;
mod words;

use input::read_input;
use output::{MOST_INPUT, MOST_OUTPUT, Text, put_profile};
use std::io;
use std::rt::Runtime;
use system::{fail, is_word, tell_status};
use value::Dialect;
use words::{Asked, asked_behind};

// Of a map that was accepted, of one that was refused, and of a run without an answer.
#[derive(Clone, Copy)]
enum Status {
    Accepted = 0,
    Refused = 1,
    Failed = 2,
}

// How the program is used.
const USAGE: &str = "usage: profile [document | mysql | mariadb] < EVENT\n\
    Checks the body of a table map event, without header and checksum, and prints a line for each\n\
    column: place, real type, flags, m0, m1, charset; or `refused`, number, place. The word names the\n\
    server that wrote the map. Without a word it is document, which is document 01 to the letter.\n\
    Status: 0 if the map is accepted, 1 if it is refused, 2 if there is no answer.\n";

// The status of a run whose output was printed, all of it or not.
fn status_if(rt: &impl Runtime, printed: io::Result<()>, status: Status) -> Status {
    match printed {
        Ok(()) => status,
        Err(error) => {
            fail(rt, "profile: standard output cannot be written", error);
            Status::Failed
        }
    }
}

fn verdict_of(text: Text) -> Status {
    if text.is_refusal {
        return Status::Refused;
    }
    Status::Accepted
}

// Whether the answer in a dialect is another text.
fn is_other(event: &[u8], dialect: Dialect, text: &[u8]) -> bool {
    let mut out = [0u8; MOST_OUTPUT];
    let other = put_profile(event, dialect, &mut out);
    &out[..other.len] != text
}

// The words of these servers.
fn say_words(rt: &impl Eprint, mysql: bool, mariadb: bool) {
    if mysql {
        let _ = rt.eprint("mysql");
    }
    if mysql && mariadb {
        let _ = rt.eprint(" or ");
    }
    if mariadb {
        let _ = rt.eprint("mariadb");
    }
}

// Says that a server's map would be answered otherwise than by the letter, if it would.
fn say_others(rt: &impl Eprint, event: &[u8], text: &[u8]) {
    let mysql = is_other(event, Dialect::Mysql, text);
    let mariadb = is_other(event, Dialect::Mariadb, text);
    if !mysql && !mariadb {
        return;
    }
    let _ = rt.eprint(
        "profile: no server was named, so this is document 01 to the letter; with the word ",
    );
    say_words(rt, mysql, mariadb);
    let _ = rt.eprint(" the answer would be another one\n");
}

// Answers the input in the dialect that was named; by the letter of document 01 where none was.
fn answer(rt: &impl Runtime, named: Option<Dialect>) -> Status {
    let mut buffer = [0u8; MOST_INPUT + 1];
    let mut out = [0u8; MOST_OUTPUT];
    let event = match read_input(rt, &mut buffer) {
        Ok(len) => &buffer[..len],
        Err(error) => {
            fail(rt, "profile: standard input cannot be read", error);
            return Status::Failed;
        }
    };
    let text = put_profile(event, named.unwrap_or(Dialect::Document), &mut out);
    let printed = &out[..text.len];
    if named.is_none() {
        say_others(rt, event, printed);
    }
    status_if(rt, rt.write_all(printed), verdict_of(text))
}

fn run(rt: &impl Runtime, asked: Asked) -> Status {
    match asked {
        Asked::For(dialect) => answer(rt, Some(dialect)),
        Asked::Letter => answer(rt, None),
        Asked::Help => status_if(rt, rt.print(USAGE), Status::Accepted),
        Asked::Unknown => {
            let _ = rt.eprint("profile: one word is taken, document, mysql or mariadb, or none\n");
            let _ = rt.eprint(USAGE);
            Status::Failed
        }
    }
}

fn main(rt: HostRuntime) {
    if !is_word(&rt, 1, b"--tell-status") {
        run(&rt, asked_behind(&rt, 1));
        return;
    }
    let status = run(&rt, asked_behind(&rt, 2));
    tell_status(&rt, status as u8);
}
