// The kind `blocks`: an image that arrives in blocks, and the end of its input.
use crate::digits::{decode, is_hex};
use crate::images::Layout;
use crate::output::Hex;
use crate::room::{digest, part, unspoiled};
use crate::stop::{Answer, Stop, tell_refusal};
use crate::values::Lent;
use crate::words::Words;
use blocks::{Arrival, Arriving, Given, Phase};
use std::io::Write;
use value::Value;
use wire::Refusal;

// What may be due before the next word: nothing, a space, or `-` and a space where no part of a long value
// came.
const NOTHING: &[u8] = b"";

const SPACE: &[u8] = b" ";

const NO_PART: &[u8] = b"- ";

// The OP that ends the input.
const END: &[u8] = b"end";

// What an OP came to: more is needed, the image is finished, or a word that ends it was told.
#[derive(Clone, Copy, PartialEq, Eq)]
enum Progress {
    Open,
    Whole,
    Told,
}

// An image as far as it has arrived.
#[derive(Drop)]
struct Walk<'a, 'c> {
    layout: Layout<'a>,
    carry: &'c mut [u8],
    arriving: Arriving,
    // What is due before the next word.
    due: &'static [u8],
    // How many bytes all calls took.
    taken: usize,
    // How many bytes of the carry may be others than at first.
    written: usize,
}

impl Walk<'_, '_> {
    // Tells what is due.
    fn tell_due(&mut self, out: &mut impl Write) -> Answer {
        out.write_all(self.due)?;
        self.due = NOTHING;
        Ok(())
    }

    // The state behind a call. It may have stored what it took behind what the carry held.
    fn follow(&mut self, given: Given) {
        let stored = self.arriving.held.saturating_add(given.taken);
        self.written = self.written.max(stored);
        self.taken = self.taken.saturating_add(given.taken);
        self.arriving = given.next;
    }

    // Gives a block. A call that refuses leaves the carry as it found it.
    fn give(&mut self, block: &[u8]) -> Result<(Result<Arrival, Refusal>, usize), Stop> {
        let written = self.written;
        let before = digest(part(self.carry, 0, written));
        let Layout { record, presence } = self.layout;
        let given = self.arriving.give(record, presence, self.carry, block);
        let arrival = given.arrival;
        let taken = given.taken;
        self.follow(given);
        if arrival.is_err() {
            if digest(part(self.carry, 0, written)) != before {
                return Err(Stop::Spoiled);
            }
            unspoiled(self.carry, 0, written)?;
        }
        Ok((arrival, taken))
    }

    // A column's value. Its bytes stand in the carry.
    fn tell_value(&self, value: Value, out: &mut impl Write) -> Answer {
        let bytes = &*self.carry;
        write!(out, "{} ", Lent { value, bytes })?;
        Ok(())
    }

    // What a call told that was lent this block; None where the OP goes on. A part of a long value is of
    // the block, and the space behind the value is due where no other part comes. The OPs behind a
    // refusal are called all the same.
    fn tell_arrival(
        &mut self,
        arrival: Result<Arrival, Refusal>,
        block: &[u8],
        out: &mut impl Write,
    ) -> Result<Option<Progress>, Stop> {
        match arrival {
            Ok(Arrival::More) => return Ok(Some(Progress::Open)),
            Ok(Arrival::Null { column: _ }) => self.tell_value(Value::Null, out)?,
            Ok(Arrival::Value { column: _, value }) => self.tell_value(value, out)?,
            Ok(Arrival::Long { column: _, len }) => {
                write!(out, "long:{len}:")?;
                self.due = NO_PART;
            }
            Ok(Arrival::Part { column: _, len }) => {
                write!(out, "{}", Hex(part(block, 0, len)))?;
                self.due = SPACE;
            }
            Ok(Arrival::End { used: _ }) => return Ok(Some(Progress::Whole)),
            Err(refusal) => {
                tell_refusal(refusal, out)?;
                return Ok(Some(Progress::Told));
            }
        }
        Ok(None)
    }

    // An OP that is a block: it is given until all that can be of it is taken. This and `end` count their
    // turns, as nothing here proves that the walk moves on.
    fn give_all(&mut self, block: &[u8], out: &mut impl Write) -> Result<Progress, Stop> {
        let mut rest = block;
        for _ in 0..u64::MAX {
            if self.arriving.phase != Phase::Long {
                self.tell_due(out)?;
            }
            let (arrival, taken) = self.give(rest)?;
            if let Some(progress) = self.tell_arrival(arrival, rest, out)? {
                return Ok(progress);
            }
            rest = part(rest, taken, rest.len());
        }
        Ok(Progress::Open)
    }

    // The OP `end`. This call is lent the carry to read alone.
    fn end(&mut self, out: &mut impl Write) -> Result<Progress, Stop> {
        for _ in 0..u64::MAX {
            self.tell_due(out)?;
            let Layout { record, presence } = self.layout;
            let given = self.arriving.end(record, presence, self.carry);
            let taken = self.taken;
            self.follow(given);
            let arrival = given.arrival;
            if let Ok(Arrival::End { used }) = arrival {
                write!(out, "end {used} {taken}")?;
                return Ok(Progress::Told);
            }
            if let Some(progress) = self.tell_arrival(arrival, &[], out)? {
                return Ok(progress);
            }
        }
        Ok(Progress::Open)
    }
}

// A block, or `end`.
fn is_op(word: &mut [u8]) -> bool {
    &*word == END || is_hex(word)
}

// `blocks RECORD PRESENCE CARRY OP...`
pub(crate) fn blocks(mut words: Words<'_>, room: &mut [u8], out: &mut impl Write) -> Answer {
    let layout = words.layout()?;
    let carry = words.room(room)?;
    if words.count_if(is_op)? == 0 {
        return Err(Stop::Bad);
    }
    let arriving = blocks::begin(layout.record, layout.presence, carry)?;
    let mut walk = Walk {
        layout,
        carry,
        arriving,
        due: NOTHING,
        taken: 0,
        written: 0,
    };
    let mut progress = Progress::Open;
    for word in words {
        if progress == Progress::Told {
            walk.due = SPACE;
        }
        progress = if &*word == END {
            walk.end(out)?
        } else {
            let block = decode(word).ok_or(Stop::Bad)?;
            walk.give_all(block, out)?
        };
    }
    match progress {
        Progress::Open => {
            walk.tell_due(out)?;
            write!(out, "open {}", walk.taken)?;
        }
        Progress::Whole => write!(out, "whole {}", walk.taken)?,
        Progress::Told => {}
    }
    Ok(())
}
