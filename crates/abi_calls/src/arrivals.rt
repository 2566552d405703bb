// The calls over an image that arrives in blocks.
use crate::told::{LEFT, tell, tell_bytes};
use std::io;

// INT, VARCHAR(20), TINYINT UNSIGNED.
const RECORD: [u8; 24] =
    *b"\x18\x00\x01\x00\x03\x00\x03\x0c\x00\x00\x00\x00\x0f\x0a\x14\x00\x00\x00\x01\x0d\x00\x00\x00\x00";

// BLOB.
const BLOB: [u8; 12] = *b"\x0c\x00\x01\x00\x01\x00\xfc\x08\x02\x00\x00\x00";

fn begin(rt: &impl Print, carry: &[u8]) -> io::Result<()> {
    let mut out = [LEFT; 5];
    let status = feed_abi::feed_begin(&RECORD, b"\x07", carry, &mut out);
    tell(rt, "feed_begin", status, &out)
}

fn begins(rt: &impl Print) -> io::Result<()> {
    let carry = [0u8; 1024];
    begin(rt, &carry)?;
    begin(rt, &carry[..1023])
}

// Where an image stands before a call: how its carry begins, and the numbers of its state.
#[derive(Clone, Copy)]
struct State {
    front: [u8; 4],
    phase: u64,
    column: usize,
    held: usize,
    left: usize,
    used: usize,
}

// In phase 0 no bytes are left of a long value.
fn open(front: &[u8; 4], column: usize, held: usize, used: usize) -> State {
    State {
        front: *front,
        phase: 0,
        column,
        held,
        left: 0,
        used,
    }
}

fn carry_of(state: State) -> [u8; 1024] {
    let mut carry = [0u8; 1024];
    carry[..4].copy_from_slice(&state.front);
    carry
}

// A block given. How the carry begins then is told too.
fn give(rt: &impl Print, record: &[u8], state: State, block: &[u8]) -> io::Result<()> {
    let mut carry = carry_of(state);
    let mut out = [LEFT; 15];
    let status = feed_abi::feed_give(
        record,
        b"\x07",
        &mut carry,
        block,
        state.phase,
        state.column,
        state.held,
        state.left,
        state.used,
        &mut out,
    );
    tell_bytes(rt, "feed_give", status, &out, &carry[..6])
}

fn end(rt: &impl Print, state: State) -> io::Result<()> {
    let carry = carry_of(state);
    let mut out = [LEFT; 15];
    let status = feed_abi::feed_end(
        &RECORD,
        b"\x07",
        &carry,
        state.phase,
        state.column,
        state.held,
        state.left,
        state.used,
        &mut out,
    );
    tell(rt, "feed_end", status, &out)
}

// -2, 'ab' and 200 in two blocks, of 7 bytes and of 2.
fn first_block(rt: &impl Print) -> io::Result<()> {
    give(
        rt,
        &RECORD,
        open(b"\x00\x00\x00\x00", 0, 0, 0),
        b"\xf8\xfe\xff\xff\xff\x02a",
    )?;
    give(rt, &RECORD, open(b"\xf8\xfe\xff\xff", 1, 1, 5), b"\x02a")?;
    end(rt, open(b"\xf8\x02a\xff", 1, 3, 7))
}

fn last_block(rt: &impl Print) -> io::Result<()> {
    give(rt, &RECORD, open(b"\xf8\x02a\xff", 1, 3, 7), b"b\xc8")?;
    give(rt, &RECORD, open(b"\xf8\x02ab", 2, 1, 8), b"\xc8")?;
    give(rt, &RECORD, open(b"\xf8\xc8ab", 3, 1, 9), b"")?;
    end(rt, open(b"\xf8\xc8ab", 3, 1, 9))
}

// A first column that is NULL, and what is refused: a phase that there is not, and the closed one.
fn more_blocks(rt: &impl Print) -> io::Result<()> {
    give(rt, &RECORD, open(b"\x00\x00\x00\x00", 0, 0, 0), b"\xf9\x07")?;
    let begun = b"\xf9\x00\x00\x00";
    let unknown = State {
        phase: 3,
        ..open(begun, 1, 1, 1)
    };
    give(rt, &RECORD, unknown, b"\x07")?;
    let closed = State {
        phase: 2,
        ..open(begun, 0, 0, 0)
    };
    end(rt, closed)
}

// A BLOB of 3,000 bytes, the first of which come with its length.
fn long_blocks(rt: &impl Print) -> io::Result<()> {
    give(
        rt,
        &BLOB,
        open(b"\x00\x00\x00\x00", 0, 0, 0),
        b"\xfe\xb8\x0b\x01\x02\x03",
    )?;
    let long = State {
        phase: 1,
        left: 3000,
        ..open(b"\xfe\xb8\x0b\x00", 0, 3, 3)
    };
    give(rt, &BLOB, long, b"\x01\x02\x03")
}

pub(crate) fn arrival_calls(rt: &impl Print) -> io::Result<()> {
    begins(rt)?;
    first_block(rt)?;
    last_block(rt)?;
    more_blocks(rt)?;
    long_blocks(rt)
}
