// Lookups in an accepted table.
// Owner and name are two numbers: structs were tried, and every border would convert (docs/DECISIONS.md, 36).
ghost use Rattle.std.specs.Prelude.{◌≡◌};
ghost use Rattle.record.specs.TableRefused.{table_fault};
ghost use Rattle.symbol.specs.Inside.LookupAnswer.{optional, optional_level};
ghost use Rattle.symbol.specs.Inside.Places.{first_place, function_places, field_part};
ghost use Rattle.symbol.specs.Inside.FunctionCursor.{functions_first, found_here, functions_next, AtFunction};
ghost use Rattle.symbol.specs.Inside.ClassRun.{rank_of, number_by};
ghost use Rattle.symbol.specs.Lookup.{symbols_of};
ghost use Rattle.ty.specs.Name.{known_id, id_number};

use crate::functions::end_of;
use crate::visibility::Visibility;
use index::index::Place;
use index::list::ListCursor;
use index::table::Table;
use record::front::{CLASS_BYTES, NAME_BYTES, RecordKind};
use ty::{NameId, Part, byte_at, id_at, id_number, known_id};

// The superclass of a class, if it has one. `accepted`: a climb along superclasses ends, since in an accepted table they are earlier records.
pub fn superclass_of(table: &Table<'_>, class: u16) -> Option<u16>
    ensures superclass { result ≡ known_id ((symbols_of table.now).super_of class) }
    ensures accepted { table_fault table.now ≡ 0 }
{
    let t = table.bytes();
    // 0, here and below: of a class the key is the first id alone.
    let p = table.seek(RecordKind::Class as u8, class, 0)?;
    known_id(id_at(t, p.at + 3))
}

// How many class records stand before that of a class, if it has one: the classes stand behind the names.
pub fn class_number(table: &Table<'_>, class: u16) -> Option<usize>
    ensures { result ≡ number_by (rank_of table.now class) }
{
    let first = NAME_BYTES * table.name_count();
    let p = table.seek(RecordKind::Class as u8, class, 0)?;
    Some((p.at - first) / CLASS_BYTES)
}

// The package of a class, if it is known.
pub fn package_of(table: &Table<'_>, class: u16) -> Option<u16>
    ensures { result ≡ known_id ((symbols_of table.now).package_of class) }
{
    let p = table.seek(RecordKind::Class as u8, class, 0)?;
    known_id(id_at(table.bytes(), p.at + 9))
}

// Whether a name is in `types`.
pub fn in_types(table: &Table<'_>, class: u16) -> bool
    ensures { result ≡ (symbols_of table.now).in_types class }
{
    let t = table.bytes();
    let p = table.seek(RecordKind::Class as u8, class, 0);
    p.is_some_and(|p| byte_at(t, p.at + 11) == 1)
}

// The mask of a class's operator set.
pub fn operators_of(table: &Table<'_>, class: u16) -> Option<u16>
    ensures { optional result ≡ (symbols_of table.now).operators_of class }
{
    // 0: of an operator set the key is the class alone.
    let p = table.seek(RecordKind::Operators as u8, class, 0)?;
    Some(id_at(table.bytes(), p.at + 3))
}

// Where the type of a field lies.
pub fn field_of(table: &Table<'_>, owner: u16, name: u16) -> Option<Part>
    ensures { result ≡ field_part table.now owner name }
{
    let t = table.bytes();
    let p = table.seek(RecordKind::Field as u8, owner, name)?;
    let start = p.at + 5;
    let len = end_of(t, p) - start;
    Some(Part { start, len })
}

// A member's visibility.
pub fn visibility_of(table: &Table<'_>, owner: u16, name: u16) -> Option<Visibility>
    ensures { optional_level result ≡ (symbols_of table.now).visibility_of owner name }
{
    let p = table.seek(RecordKind::Visibility as u8, owner, name)?;
    Some(Visibility::of_byte(byte_at(table.bytes(), p.at + 5)))
}

// Whether there is such a suspend function.
#[tactic(auto, using(crate::proofs::LaidLookups::suspend_told, crate::proofs::PlacesFound::found_some))]
pub fn is_suspend(table: &Table<'_>, owner: Option<u16>, name: u16) -> bool
    ensures { result ≡ (symbols_of table.now).is_suspend (id_number owner) name }
{
    table
        .seek(RecordKind::Suspend as u8, id_number(owner), name)
        .is_some()
}

// Whether there is such an enum variant.
#[tactic(auto, using(crate::proofs::LaidLookups::variant_told, crate::proofs::PlacesFound::found_some))]
pub fn is_variant(table: &Table<'_>, owner: u16, name: u16) -> bool
    ensures { result ≡ (symbols_of table.now).is_variant owner name }
{
    table.seek(RecordKind::Variant as u8, owner, name).is_some()
}

// A place in the list of functions of an owner and a name: at one of them, or at the list's end. A cursor of its own over the index's: that one speaks of the
// records with a key, this one of the functions that the definitions list. Each step hands a cursor back, as document 01 has it (docs/DECISIONS.md, "Forms that
// document 01 names"): no Iterator.
#[derive(Clone, Copy)]
pub struct Functions {
    pub list: ListCursor,
}

impl Functions {
    // At the first of them.
    #[tactic(auto, using(crate::proofs::FunctionCursors::first_is))]
    pub fn first(table: &Table<'_>, owner: Option<u16>, name: u16) -> Functions
        ensures { result ≡ functions_first table.now (id_number owner) name }
    {
        Functions {
            list: ListCursor::first(table, id_number(owner), name),
        }
    }

    // At the next of them.
    #[tactic(auto, using(crate::proofs::FunctionCursors::next_is))]
    pub fn next(self, table: &Table<'_>) -> Functions
        requires { AtFunction table.now self }
        ensures { result ≡ functions_next table.now self }
    {
        Functions {
            list: self.list.next(table),
        }
    }

    // The function here.
    #[tactic(auto, unfolding(crate::specs::Inside::FunctionCursor::found_here))]
    pub fn found(self) -> Option<Place>
        ensures { result ≡ found_here self }
    {
        self.list.found()
    }
}

// The first function of an owner and a name.
#[tactic(auto, using(crate::proofs::FunctionCursors::first_here))]
pub fn first_function(table: &Table<'_>, owner: Option<u16>, name: u16) -> Option<Place>
    ensures { result ≡ first_place (function_places table.now (id_number owner) name) }
{
    Functions::first(table, owner, name).found()
}

// Whether a name is one capital letter. The names are the table's first records, of 26 bytes each.
pub fn is_capital(table: &Table<'_>, id: u16) -> bool
    ensures { result ≡ (symbols_of table.now).is_capital id }
{
    let t = table.bytes();
    if id < NameId::FIRST_OF_TABLE {
        return false;
    }
    let i = (id - NameId::FIRST_OF_TABLE) as usize;
    if table.name_count() <= i {
        return false;
    }
    (byte_at(t, 26 * i + 1) == 1) & byte_at(t, 26 * i + 2).is_ascii_uppercase()
}
