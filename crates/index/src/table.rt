// An accepted table with its index.
ghost use Rattle.std.specs.Prelude.{◌≡◌, List, ℕ};
ghost use Rattle.index.specs.Inside.Found.{first_with, found_at, FoundIs};
ghost use Rattle.index.specs.Inside.IndexedTable.{IndexedTable};
ghost use Rattle.index.specs.Inside.SearchKey.{Single};
ghost use Rattle.record.specs.Inside.Keyed.{records_with};
ghost use Rattle.record.specs.Table.{records_of, name_count};
ghost use Rattle.record.specs.TableRefused.{table_fault};

use crate::index::{Place, entry_at};
use crate::tree::{Key, search, tree_of};
use std::marker::Model;

// An accepted table, and its index.
#[derive(Drop)]
pub struct Table<'a> {
    bytes: &'a [u8],
    index: &'a [u16],
}

impl<'a> Model for Table<'a> {
    ghost Value = { List ℕ };

    ghost view = { λ t. t.bytes.now };

    ghost invariant = { λ t. IndexedTable t.bytes.now t.index.now };
}

impl<'a> Table<'a> {
    pub fn new(bytes: &'a [u8], index: &'a [u16]) -> Table<'a>
        requires { IndexedTable bytes.now index.now }
        ensures { result ≡ bytes.now }
    {
        Table { bytes, index }
    }

    // The table's bytes. `clean` says of the invariant what callers' measures and bounds need: it speaks of private fields itself.
    pub fn bytes(&self) -> &'a [u8]
        ensures bytes { result.now ≡ self.now }
        ensures clean { table_fault self.now ≡ 0 }
    {
        self.bytes
    }

    // The table's index.
    pub(crate) fn index(&self) -> &'a [u16]
        ensures { IndexedTable self.now result.now }
    {
        self.index
    }

    // How many names the table has.
    pub fn name_count(&self) -> usize
        ensures count { result ≡ name_count (records_of self.now) }
        ensures clean { table_fault self.now ≡ 0 }
    {
        entry_at(self.index, 0)
    }

    // The only record of a kind, from 2 on and not 4, with a key. The kind is a byte, as in a Key; of a byte past the last kind there is none.
    #[tactic(auto, using(crate::proofs::Firsts::found_first, crate::proofs::Single::accepted_open, crate::proofs::Single::single_ok))]
    pub fn seek(&self, kind: u8, one: u16, two: u16) -> Option<Place>
        requires { Single kind }
        ensures first { result ≡ found_at (first_with self.now kind one two) }
        ensures records { FoundIs self.now (records_with kind one two (records_of self.now)) kind one two result }
    {
        let t = self.bytes;
        let key = Key::Ids { kind, one, two };
        search(t, self.index, key, tree_of(t, key)).ok()
    }
}
