// The words of a line, and the parts of a word, read one after the other. A byte string is decoded where
// it stands. A word that is not there, or not as it is asked for, makes the line a bad one.
ghost use Rattle.std.specs.Prelude.{◌≤◌, length};
ghost use Rattle.std.specs.Iterator.{at_most};

use crate::digits::{decode, parse_number};
use crate::images::Layout;
use crate::room::FILLER;
use crate::stop::Stop;
use crate::values::{Lent, read_value};
use image::Cursor;
use std::mem;
use value::{Column, Dialect};

// The words that are left, each with the byte before it that parts it from the one before.
#[derive(Drop)]
pub(crate) struct Words<'a> {
    rest: &'a mut [u8],
    between: u8,
}

impl<'a> Iterator for Words<'a> {
    type Item = &'a mut [u8];

    ghost remaining = { λ s. at_most (length s.rest.now) };

    fn next(&mut self) -> Option<&'a mut [u8]> {
        let rest = mem::take(&mut self.rest);
        let (_, words) = rest.split_first_mut()?;
        let end = place_of(words, self.between);
        let (word, rest) = words.split_at_mut(end);
        self.rest = rest;
        Some(word)
    }
}

// Where a byte stands first in a text, the end where it does not.
fn place_of(text: &[u8], sought: u8) -> usize
    ensures { result ≤ length text.now }
{
    let place = text.iter().position(|byte| *byte == sought);
    place.unwrap_or(text.len())
}

impl<'a> Words<'a> {
    // The name at the front of a text, and the words behind it.
    pub(crate) fn behind_name(text: &'a mut [u8], between: u8) -> (&'a [u8], Words<'a>) {
        let end = place_of(text, between);
        let (name, rest) = text.split_at_mut(end);
        (name, Words { rest, between })
    }

    // How many words are left, if each is such a one. They are looked at before any of them is read.
    pub(crate) fn count_if<F: FnMut(&mut [u8]) -> bool>(
        &mut self,
        is_such: F,
    ) -> Result<usize, Stop>
        requires { F.IsAlwaysCallable is_such }
    {
        let between = self.between;
        if !self
            .rest
            .split_mut(|byte| *byte == between)
            .skip(1)
            .all(is_such)
        {
            return Err(Stop::Bad);
        }
        Ok(self.rest.split(|byte| *byte == between).skip(1).count())
    }

    pub(crate) fn word(&mut self) -> Result<&'a mut [u8], Stop> {
        self.next().ok_or(Stop::Bad)
    }

    // No word is left.
    pub(crate) fn end(&self) -> Result<(), Stop> {
        if self.rest.is_empty() {
            return Ok(());
        }
        Err(Stop::Bad)
    }

    // A byte string.
    pub(crate) fn bytes(&mut self) -> Result<&'a [u8], Stop> {
        decode(self.word()?).ok_or(Stop::Bad)
    }

    // A number that fits its type.
    pub(crate) fn number<T: TryFrom<u64>>(&mut self) -> Result<T, Stop>
    where
        T::Error: Drop,
    {
        let number = parse_number(self.word()?).ok_or(Stop::Bad)?;
        T::try_from(number).map_err(|_| Stop::Bad)
    }

    // 0 or 1.
    pub(crate) fn flag(&mut self) -> Result<bool, Stop> {
        match self.number::<u8>()? {
            0 => Ok(false),
            1 => Ok(true),
            _ => Err(Stop::Bad),
        }
    }

    // So many bytes of the room are lent, filled. It is all there: a line that asks for more is bad.
    pub(crate) fn room<'r>(&mut self, room: &'r mut [u8]) -> Result<&'r mut [u8], Stop> {
        let size = self.number::<usize>()?;
        let lent = room.get_mut(..size).ok_or(Stop::Bad)?;
        lent.fill(FILLER);
        Ok(lent)
    }

    pub(crate) fn value(&mut self) -> Result<Lent<'a>, Stop> {
        read_value(self.word()?)
    }

    pub(crate) fn dialect(&mut self) -> Result<Dialect, Stop> {
        match &*self.word()? {
            b"document" => Ok(Dialect::Document),
            b"mysql" => Ok(Dialect::Mysql),
            b"mariadb" => Ok(Dialect::Mariadb),
            _ => Err(Stop::Bad),
        }
    }

    // A post-header length. All but 6 read alike, and a case may name one that no byte holds.
    pub(crate) fn post_header(&mut self) -> Result<u8, Stop> {
        match self.number::<u64>()? {
            6 => Ok(6),
            _ => Ok(8),
        }
    }

    // `RECORD PRESENCE`
    pub(crate) fn layout(&mut self) -> Result<Layout<'a>, Stop> {
        Ok(Layout {
            record: self.bytes()?,
            presence: self.bytes()?,
        })
    }

    // `COLUMN OFFSET`
    pub(crate) fn cursor(&mut self) -> Result<Cursor, Stop> {
        Ok(Cursor {
            column: self.number()?,
            offset: self.number()?,
        })
    }

    // `TYPE M0 M1 UNSIGNED`
    pub(crate) fn column(&mut self) -> Result<Column, Stop> {
        Ok(Column {
            real: self.number()?,
            m0: self.number()?,
            m1: self.number()?,
            unsigned: self.flag()?,
        })
    }
}
