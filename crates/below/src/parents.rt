// The class records of a table: the classes, and the parents that they name.
ghost use Rattle.std.specs.Prelude.{◌≡◌, ◌<◌, ◌&&◌, ◌||◌, eqb, not, take, drop, List, ℕ, MatchOption};
ghost use Rattle.below.specs.Inside.Marks.{id_count};
ghost use Rattle.below.specs.Inside.RecordParents.{ParentsOf, ParentsBelow, NoParent, ParentedIs};
ghost use Rattle.record.specs.Table.{records_of, name_count};
ghost use Rattle.record.specs.TableRefused.{table_fault};
ghost use Rattle.symbol.specs.Inside.ClassRun.{class_start, class_at};
ghost use Rattle.symbol.specs.Lookup.{symbols_of};
ghost use Rattle.ty.specs.Name.{no_id};

use index::table::Table;
use record::front::{CLASS_BYTES, NAME_BYTES};
use std::marker::Model;
use symbol::lookups::class_number;
use ty::{NameId, id_at};

// The parents that a class record names; 65,535 is none.
#[derive(Clone, Copy)]
pub struct Parents {
    pub superclass: u16,
    pub first_interface: u16,
    pub second_interface: u16,
}

impl Parents {
    // There are none.
    pub fn are_none(self) -> bool
        ensures { result ≡ eqb self.superclass no_id && (eqb self.first_interface no_id && eqb self.second_interface no_id) }
    {
        (self.superclass == NameId::NONE)
            & ((self.first_interface == NameId::NONE) & (self.second_interface == NameId::NONE))
    }

    // A class is one of them.
    pub fn has(self, class: u16) -> bool
        ensures { result ≡ not (eqb class no_id) && (eqb self.superclass class || (eqb self.first_interface class || eqb self.second_interface class)) }
    {
        (class != NameId::NONE)
            & ((self.superclass == class)
                | ((self.first_interface == class) | (self.second_interface == class)))
    }
}

// The class records of an accepted table, which stand behind its names.
#[derive(Drop)]
pub struct ClassRecords<'a> {
    bytes: &'a [u8],
    names: usize,
}

impl<'a> Model for ClassRecords<'a> {
    ghost Value = { List ℕ };

    ghost view = { λ r. r.bytes.now };

    ghost invariant = { λ r. (table_fault r.bytes.now ≡ 0) × (r.names ≡ name_count (records_of r.bytes.now)) };
}

impl<'a> ClassRecords<'a> {
    // Those of a table.
    pub fn of(table: &Table<'a>) -> ClassRecords<'a>
        ensures table { result ≡ table.now }
        ensures accepted { table_fault table.now ≡ 0 }
    {
        ClassRecords {
            bytes: table.bytes(),
            names: table.name_count(),
        }
    }

    // Class record i, from 0 on.
    fn bytes_at(&self, i: usize) -> &'a [u8]
        requires { i < (symbols_of self.now).classes }
        ensures bytes { result.now ≡ take 12 (drop (class_start self.now i) self.now) }
        ensures accepted { table_fault self.now ≡ 0 }
    {
        let start = NAME_BYTES * self.names + CLASS_BYTES * i;
        &self.bytes[start..start + CLASS_BYTES]
    }

    // The class of class record i.
    pub fn class_at(&self, i: usize) -> u16
        requires { i < (symbols_of self.now).classes }
        ensures { result ≡ class_at self.now i }
    {
        id_at(self.bytes_at(i), 1)
    }

    // The parents that class record i names.
    pub fn parents_at(&self, i: usize) -> Parents
        requires { i < (symbols_of self.now).classes }
        ensures of_class { ParentsOf (symbols_of self.now) (class_at self.now i) result }
        ensures below { ParentsBelow id_count result }
    {
        let bytes = self.bytes_at(i);
        Parents {
            superclass: id_at(bytes, 3),
            first_interface: id_at(bytes, 5),
            second_interface: id_at(bytes, 7),
        }
    }
}

// A class record that names a parent, and its parents.
#[derive(Clone, Copy)]
pub struct Parented {
    pub number: usize,
    pub parents: Parents,
}

// The record of a class that has a parent. None where the class has no record or no parent: nothing is above it.
pub fn parents_of(table: &Table<'_>, class: u16) -> Option<Parented>
    ensures parents { MatchOption result (NoParent (symbols_of table.now) class) (ParentedIs table.now class) }
    ensures accepted { table_fault table.now ≡ 0 }
{
    let records = ClassRecords::of(table);
    let number = class_number(table, class)?;
    let parents = records.parents_at(number);
    if parents.are_none() {
        return None;
    }
    Some(Parented { number, parents })
}
