// What the record says of each column, and the whole record, written in one pass over the columns.
ghost use Rattle.std.specs.Prelude.{◌≡◌, cond, ◌≤◌, ◌<◌, length};
ghost use Rattle.wire.specs.Bits.{bit_lsb0};
ghost use Rattle.wire.specs.Stored.{store, stored, answer_of, left_of};
ghost use Rattle.wire.specs.Parts.{lent_part};
ghost use Rattle.value.specs.Classes.{is_character};
ghost use Rattle.record.specs.Records.{most_columns, entry_at, entries_bytes, record_bytes};
ghost use Rattle.map_check.specs.Inner.Columns.{declare_all};
ghost use Rattle.map_check.specs.Ranks.{table_place, no_ranks};
ghost use Rattle.map_check.specs.Profile.{is_sign_known, is_unsigned, is_visible, flags_of, entry_with, entries_from};
ghost use Rattle.map_check.specs.Inner.Making.{ClassHolds, Writable, Ready, Begins, Came};

use crate::charset::{CharsetCursor, charset_if, first_charset};
use crate::declare::{Declared, declare};
use crate::facts::Facts;
use crate::found::value_in;
use crate::rank::{Rank, Ranks, TablePlace, ranks_after};
use record::Entry;
use table_map::flag;
use value::{Dialect, has_charset, is_character, is_enum_or_set, is_numeric, metadata_bytes};
use wire::refusal::NO_ROOM;
use wire::{Refusal, bit_lsb0, part_of, refuse};

// A map that passed: its event, the types and the metadata of its columns there, and what was kept of its fields.
#[derive(Clone, Copy)]
pub(crate) struct Passed<'a> {
    pub dialect: Dialect,
    pub event: &'a [u8],
    pub types: &'a [u8],
    pub metadata: &'a [u8],
    pub facts: Facts,
}

// Where the making of a record stands between two columns.
#[derive(Clone, Copy)]
pub(crate) struct Progress {
    // where the next column's metadata starts
    pub metadata: usize,
    pub ranks: Ranks,
    pub characters: CharsetCursor,
    pub choices: CharsetCursor,
}

// A column's entry, and where the making stands behind it.
#[derive(Clone, Copy)]
pub(crate) struct EntryTurn {
    pub entry: Entry,
    pub next: Progress,
}

impl<'a> Passed<'a> {
    // Signedness is told of document 01's numeric columns alone, though a dialect may count a bit for others.
    fn is_sign_known(&self, column: Declared) -> bool
        ensures { result ≡ is_sign_known self.now.facts column }
    {
        is_numeric(column.kind) && self.facts.signs.is_some()
    }

    // Signedness bits go by the rank among the columns that have one.
    fn is_unsigned(&self, column: Declared, rank: Rank) -> bool
        ensures { result ≡ is_unsigned self.now.event.now self.now.facts column rank }
    {
        self.is_sign_known(column) && flag(value_in(self.event, self.facts.signs), rank.0)
    }

    // Nullable and visibility bits go by the place.
    fn is_nullable(&self, column: TablePlace) -> bool
        ensures { result ≡ bit_lsb0 (lent_part self.now.event.now self.now.facts.bits) column.0 }
    {
        bit_lsb0(part_of(self.event, self.facts.bits), column.0)
    }

    fn is_visible(&self, column: TablePlace) -> bool
        ensures { result ≡ is_visible self.now.event.now self.now.facts column }
    {
        let visibility = self.facts.visibility;
        visibility.is_none() || flag(value_in(self.event, visibility), column.0)
    }

    #[tactic(auto, unfolding(crate::specs::Profile::flags_of))]
    fn flags_of(&self, column: Declared, place: TablePlace, ranks: Ranks) -> u8
        ensures { result ≡ flags_of self.now.event.now self.now.facts column place ranks }
    {
        let rank = ranks.sign;
        let unsigned = u8::from(self.is_unsigned(column, rank));
        let nullable = u8::from(self.is_nullable(place));
        let known = u8::from(self.is_sign_known(column));
        let visible = u8::from(self.is_visible(place));
        unsigned + 2 * nullable + 4 * known + 8 * visible
    }

    // The entry of a column, given its charset.
    fn entry_with(&self, column: Declared, place: TablePlace, ranks: Ranks, charset: u16) -> Entry
        ensures { result ≡ entry_with self.now.event.now self.now.facts column place ranks charset }
    {
        Entry {
            real: column.real,
            flags: self.flags_of(column, place, ranks),
            m0: column.m0,
            m1: column.m1,
            charset,
        }
    }

    // Where the making stands before the first column.
    fn first_progress(&self) -> Progress
        requires { ClassHolds self.now.event.now self.now.facts.characters × ClassHolds self.now.event.now self.now.facts.choices }
        ensures { Begins self.now.event.now self.now.facts result }
    {
        Progress {
            metadata: 0,
            ranks: Ranks::default(),
            characters: first_charset(self.event, self.facts.characters),
            choices: first_charset(self.event, self.facts.choices),
        }
    }

    // The entry of the column at a place, where the making stands before it, and where it stands behind it.
    fn next_entry(&self, place: TablePlace, progress: Progress) -> EntryTurn
        requires { (place.0 < length self.now.types.now) × (length self.now.types.now ≤ most_columns)
            × Ready self.now.event.now self.now.facts place.0 progress }
        ensures { Came self.now.dialect self.now.event.now self.now.facts self.now.types.now self.now.metadata.now place.0 progress result }
    {
        let Progress {
            metadata,
            ranks,
            characters,
            choices,
        } = progress;
        let kind = self.types[place.0];
        let rest = &self.metadata[metadata.min(self.metadata.len())..];
        let column = declare(kind, rest);
        let real = column.real;
        let counted = has_charset(self.dialect, real);
        let character = charset_if(
            self.event,
            counted,
            self.facts.characters,
            characters,
            ranks.character,
        );
        let chosen = is_enum_or_set(real);
        let choice = charset_if(
            self.event,
            chosen,
            self.facts.choices,
            choices,
            ranks.choice,
        );
        let charset = pick_charset(real, character.charset, choice.charset);
        EntryTurn {
            entry: self.entry_with(column, place, ranks, charset),
            next: Progress {
                metadata: metadata + metadata_bytes(kind),
                ranks: ranks_after(self.dialect, ranks, column),
                characters: character.next,
                choices: choice.next,
            },
        }
    }

    // Writes the entries of all columns, each at its place. There is room for all, so no write is refused.
    fn write_entries(&self, buf: &mut [u8])
        requires { Writable self.now.event.now self.now.types.now self.now.facts × (entry_at (length self.now.types.now) ≤ length buf.old) }
        ensures { buf.new
            ≡ stored (entries_bytes (entries_from self.now.dialect self.now.event.now self.now.facts
            (declare_all self.now.types.now self.now.metadata.now) (table_place 0) no_ranks)) buf.old (entry_at 0) }
    {
        let mut progress = self.first_progress();
        for j in 0..self.types.len() {
            let turn = self.next_entry(TablePlace(j), progress);
            let at = record::entry_at(j);
            let _ = record::write_entry(turn.entry, buf, at);
            progress = turn.next;
        }
    }

    // Writes the record of the map: all of it, or nothing.
    pub(crate) fn write_record(&self, buf: &mut [u8]) -> Result<usize, Refusal>
        requires { Writable self.now.event.now self.now.types.now self.now.facts }
        ensures result_value { result
            ≡ answer_of (store (record_bytes (entries_from self.now.dialect self.now.event.now self.now.facts
            (declare_all self.now.types.now self.now.metadata.now) (table_place 0) no_ranks)) buf.old 0) }
        ensures buf_after { buf.new
            ≡ left_of (store (record_bytes (entries_from self.now.dialect self.now.event.now self.now.facts
            (declare_all self.now.types.now self.now.metadata.now) (table_place 0) no_ranks)) buf.old 0) buf.old }
    {
        let columns = self.types.len();
        let size = record::entry_at(columns);
        if buf.len() < size {
            return Err(refuse(NO_ROOM, 0));
        }
        let _ = record::write_head(columns as u16, buf);
        self.write_entries(buf);
        Ok(size)
    }
}

// Of the two charsets looked up for a column, the one that the record gives. A dialect may count charsets of columns that are not character
// columns in document 01: such a charset is passed over, and `choice` is 0 there.
fn pick_charset(real: u8, character: u16, choice: u16) -> u16
    ensures { result ≡ cond (is_character real) character choice }
{
    if is_character(real) {
        character
    } else {
        choice
    }
}
