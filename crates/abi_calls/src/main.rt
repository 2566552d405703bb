// Calls every function of feed_abi, and prints a line for each call. The stored output holds the numbers of the
// interface, which code and definitions could change together. What is wrong with a run is said on standard
// error, and its status is told to `./run` if that asks for it.
//
// Phases, kinds, lists and dialects are numbers here: they are what C passes. Many functions take `rt`,
// `record` and `event`: each is what the call takes; a struct would be opened again in each.
#![tactic(auto)]

mod arrivals;
mod events;
mod maps;
mod rows;
mod system;
mod told;

use arrivals::arrival_calls;
use events::event_calls;
use maps::{RECORD, check, map_calls};
use rows::{row_calls, write_calls};
use std::io;
use std::rt::Runtime;
use system::{fail, is_word, tell_status, word_count};

// A map with a column for each sort of value, and with lists of each kind among its optional fields. No two
// dialects read it alike: the bit of its YEAR and the charset of its geometry go to other columns.
const MAP: [u8; 144] = *b"\x02\x01\x00\x00\x00\x00\x05\x00\x04shop\x00\x06orders\x00\
    \x0e\x03\x03\x04\x05\x11\x0d\x0a\x12\x13\xff\x0f\x01\xfe\xfe\
    \x0c\x04\x08\x02\x06\x04\x04\x2c\x01\xf7\x01\xf8\x01\x20\x0c\
    \x01\x01\x48\x02\x03\x21\x00\x2d\
    \x04\x2f\x02id\x01n\x01f\x01d\x02at\x04year\x03day\x04when\x04took\x04spot\x04note\x01t\x01e\x01s\
    \x05\x08\x03\x01x\x02yz\x01w\x06\x07\x02\x01a\x03bcd\
    \x07\x01\x01\x09\x04\x00\x00\x0a\x14\x0a\x01\x08\x0c\x02\xff\xf8";

// Whether all was printed, or not.
#[derive(Clone, Copy)]
enum Status {
    Printed = 0,
    Failed = 2,
}

// How the program is used.
const USAGE: &str = "usage: abi_calls\n\
    Calls every function of feed_abi, and prints a line for each call: its name, its status, the numbers\n\
    that it was lent, `-` for those that it left alone, and what else it was lent to write to.\n\
    Status: 0 if all of it was printed, else 2.\n";

// The calls that read and write under the record of the map.
fn put_record_calls(rt: &impl Print, record: &mut [u8]) -> io::Result<()> {
    check(rt, &MAP, 1, record)?;
    row_calls(rt, record)?;
    write_calls(rt, record)?;
    event_calls(rt, record)
}

fn put_calls(rt: &impl Print) -> io::Result<()> {
    let mut record = [0u8; RECORD];
    map_calls(rt, &MAP)?;
    put_record_calls(rt, &mut record)?;
    arrival_calls(rt)
}

// The status of what was printed, all of it or not. What failed is said.
fn status_of(rt: &impl Runtime, printed: io::Result<()>) -> Status {
    match printed {
        Ok(()) => Status::Printed,
        Err(error) => {
            fail(rt, "abi_calls: standard output cannot be written", error);
            Status::Failed
        }
    }
}

// Does what the words from this one on ask for.
fn run(rt: &impl Runtime, first: usize) -> Status {
    let count = word_count(rt);
    if count <= first {
        return status_of(rt, put_calls(rt));
    }
    if count - first == 1 && is_word(rt, first, b"--help") {
        return status_of(rt, rt.print(USAGE));
    }
    let _ = rt.eprint("abi_calls: no word is taken\n");
    let _ = rt.eprint(USAGE);
    Status::Failed
}

fn main(rt: HostRuntime) {
    if !is_word(&rt, 1, b"--tell-status") {
        run(&rt, 1);
        return;
    }
    let status = run(&rt, 2);
    tell_status(&rt, status as u8);
}
