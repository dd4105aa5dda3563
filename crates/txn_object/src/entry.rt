// The entries of a transaction, and lists of them.
ghost use Rattle.std.specs.Prelude.{◌≡◌, ◌+◌, ◌^◌, ◌<◌, ◌↔◌, [], ◌∷◌, ◌++◌, length, slice_get, Some, IfOk, IsTrue};

use pm_model::NoMemory;
use std::alloc::Global;
use std::marker::Model;

// The kind of an entry stands in the upper 8 bits of its word, and the table in the next 24.
const KIND_UNIT: u64 = 1 << 56;

const TABLE_UNIT: u64 = 1 << 32;

const TABLES: u64 = KIND_UNIT / TABLE_UNIT;

/// What a transaction did to a row.
#[derive(Clone, Copy, Debug, PartialEq, Eq)]
pub enum EntryKind {
    Created,
    Ended,
}

/// A row that a transaction created or ended.
#[derive(Clone, Copy, Debug, PartialEq, Eq)]
pub struct Entry {
    pub kind: EntryKind,
    pub table: u32,
    pub row: u32,
}

impl Entry {
    ghost use Rattle.txn_object.specs.Entries.{entry_word, entry_of};

    /// The word of an entry.
    pub fn word(self) -> u64
        requires { self.table < 2 ^ 24 }
        ensures { result ≡ entry_word self }
    {
        let kind = match self.kind {
            EntryKind::Created => 1,
            EntryKind::Ended => 2,
        };
        kind * KIND_UNIT + u64::from(self.table) * TABLE_UNIT + u64::from(self.row)
    }

    /// The entry that a word spells. The kind of a word that no entry has is `Ended`.
    pub fn of_word(word: u64) -> Entry
        ensures { result ≡ entry_of word }
    {
        let kind = if word / KIND_UNIT == 1 {
            EntryKind::Created
        } else {
            EntryKind::Ended
        };
        Entry {
            kind,
            table: (word / TABLE_UNIT % TABLES) as u32,
            row: (word % TABLE_UNIT) as u32,
        }
    }
}

/// Entries in order, with the room for more of them taken beforehand.
#[derive(Debug, Drop)]
pub struct EntryList {
    items: Vec<Entry>,
}

impl Model for EntryList {
    ghost use Rattle.std.specs.Prelude.{◌-◌, ◌<◌, ◌^◌, vec_len, vec_capacity};
    ghost use Rattle.txn_object.specs.EntryListState.{EntryListState};

    ghost Value = { EntryListState };

    ghost view = { λ l. record { entries = l.items.items; spare = vec_capacity l.items - vec_len l.items } };

    ghost invariant = { λ l. vec_capacity l.items < 2 ^ 32 };
}

impl EntryList {
    /// An empty list with room for so many entries.
    pub fn with_room(alloc: Global, room: u32) -> Result<EntryList, NoMemory>
        ensures entries { IfOk result (λ list. list.entries ≡ []) }
        ensures spare { IfOk result (λ list. list.spare ≡ room) }
    {
        Ok(EntryList {
            items: Vec::with_capacity(alloc, room as usize)?,
        })
    }

    /// How many more entries there is room for.
    pub fn spare(&self) -> u32
        ensures { result ≡ self.now.spare }
    {
        (self.items.capacity() - self.items.len()) as u32
    }

    /// How many entries the list has.
    pub fn len(&self) -> u32
        ensures { result ≡ length self.now.entries }
    {
        self.items.len() as u32
    }

    pub fn is_empty(&self) -> bool
        ensures { IsTrue result ↔ (self.now.entries ≡ []) }
    {
        self.items.is_empty()
    }

    /// Appends an entry. It takes no memory.
    pub fn push(&mut self, entry: Entry)
        requires { 0 < self.old.spare }
        ensures entries { self.new.entries ≡ self.old.entries ++ entry ∷ [] }
        ensures spare { self.new.spare + 1 ≡ self.old.spare }
    {
        self.items.push_reserved(entry);
    }

    /// The entry at a place, counted from 0.
    pub fn get(&self, place: u32) -> Entry
        requires { place < length self.now.entries }
        ensures { slice_get self.now.entries place ≡ Some result }
    {
        self.items[place as usize]
    }
}
