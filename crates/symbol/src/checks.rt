// The table's refusals.
ghost use Rattle.std.specs.Prelude.{ℕ, List, ◌≡◌, ◌||◌, ◌≤◌, length, IfOk};
ghost use Rattle.index.specs.Inside.Ahead.{late_size, LateRoom};
ghost use Rattle.symbol.specs.Inside.Asked.{Asked, Prepared, Planted, missing_one, missing_at, any_missing, is_ahead, any_ahead, own_fault_at, key_fault_at};
ghost use Rattle.symbol.specs.Inside.Join.{EntryIs, KeyAsked, JoinAsked, index_joined};
ghost use Rattle.symbol.specs.Inside.IndexMade.{index_made};
ghost use Rattle.symbol.specs.Inside.LateMade.{late_looked, late_made};
ghost use Rattle.record.specs.Inside.HeadFault.{has_class};
ghost use Rattle.record.specs.RecordKind.{record_kind_number};
ghost use Rattle.record.specs.TableRefused.{table_fault};
ghost use Rattle.record.specs.Table.{records_of, name_count, before};
ghost use Rattle.symbol.specs.TableFault.{table_fault_number};
ghost use Rattle.symbol.specs.Inside.Checked.{checked_number};
ghost use Rattle.index.specs.Inside.IndexedTable.{IndexRoom, IndexedTable};
ghost use Rattle.record.specs.Inside.Walk.{CursorAt};

use crate::names::check_names;
use index::ahead::{class_ahead, look_ahead};
use index::index::{Place, SHORT_TABLE, key_bucket, list_reduced, place_at, put};
use index::list::enter;
use index::tree::{Key, search, tree_of};
use record::front::{Head, RecordKind};
use record::walk::{Cursor, TableWalk};
use ty::name::id_defined;
use ty::{NameId, id_at};

// So many bytes a table has at most.
const LONGEST_TABLE: usize = 60000;

// Why a table is refused.
#[derive(Clone, Copy, PartialEq, Eq)]
pub enum TableFault {
    TooLong = 1,
    // Or cut.
    Malformed,
    // A record has a lower kind than the one before it.
    KindFalls,
    UndefinedId,
    // A record's key, or a parameter's name within one function.
    KeyRepeated,
    // A superclass or interface has a record, but not an earlier one.
    ParentLate,
    // In a type; or a type has no end.
    HasError,
}

impl TableFault {
    // Its number in an answer.
    pub fn number(self) -> u8
        ensures { result ≡ table_fault_number self }
    {
        self as u8
    }
}

// Of a class's superclass and interfaces each that has no earlier record; NameId::NONE for the others. Three ids fill a register, where each as an Option takes
// twice as much, and every record's answer is tested.
#[derive(Clone, Copy)]
pub struct Missing {
    pub superclass: u16,
    pub first_interface: u16,
    pub second_interface: u16,
}

// What a record that is not refused does in the index: it fills an empty entry of its tree, or joins a list of functions. An enum, as neither is a none.
#[derive(Clone, Copy)]
pub enum Entry {
    Tree(usize),
    List(usize),
}

// The functions below take a table's bytes with the index that is made, and a cursor with the record read there: no Table is accepted yet. What they ask
// (Stands, Planted, Prepared, Asked, IndexRoom) says how walk, table and index go together; that a table is not too long is asked, as check_table tests it.
// A struct of table, cursor and record with these facts would be made for each record and taken apart in each function, since index and record take bytes.

// An earlier record is the class id.
#[tactic(auto, using(crate::proofs::SearchMeetsKey::class_searched))]
fn class_before(t: &[u8], x: &[u16], me: Cursor, id: u16) -> bool
    requires { CursorAt t.now me × Planted t.now x.now me.at }
    ensures { result ≡ has_class id (before me.index (records_of t.now)) }
{
    let key = Key::Ids {
        kind: RecordKind::Class.number(),
        one: id,
        // 0: of a class the key is the first id alone.
        two: 0,
    };
    search(t, x, key, tree_of(t, key)).is_ok()
}

// The class id, if no earlier record is it; NameId::NONE otherwise.
#[tactic(auto, using(crate::proofs::CheckRules::missing_rules))]
fn missing_one(t: &[u8], x: &[u16], me: Cursor, id: u16) -> u16
    requires { CursorAt t.now me × Planted t.now x.now me.at }
    ensures { result ≡ missing_one (before me.index (records_of t.now)) id }
{
    if id == NameId::NONE || class_before(t, x, me, id) {
        return NameId::NONE;
    }
    id
}

// The superclass and the interfaces of the record h at me that have no earlier record; of other kinds none.
fn parents_missing(t: &[u8], x: &[u16], me: Cursor, h: Head) -> Missing
    requires { Prepared t.now x.now me h }
    ensures { result ≡ missing_at t.now me }
{
    if h.kind != RecordKind::Class {
        return Missing {
            superclass: NameId::NONE,
            first_interface: NameId::NONE,
            second_interface: NameId::NONE,
        };
    }
    Missing {
        superclass: missing_one(t, x, me, h.two),
        first_interface: missing_one(t, x, me, id_at(t, me.at + 5)),
        second_interface: missing_one(t, x, me, id_at(t, me.at + 7)),
    }
}

// Whether the superclass or an interface is missing.
fn any_missing(m: Missing) -> bool
    ensures { result ≡ any_missing m }
{
    (m.superclass != NameId::NONE)
        | ((m.first_interface != NameId::NONE) | (m.second_interface != NameId::NONE))
}

// Whether a missing class has a record at byte p or behind it, by the classes ahead.
fn is_ahead(late: &[u16], p: usize, id: u16) -> bool
    ensures { result ≡ is_ahead late.now p id }
{
    id != NameId::NONE && class_ahead(late, p, id)
}

// Whether one of the missing has a record at byte p or behind it.
fn any_ahead(late: &[u16], p: usize, m: Missing) -> bool
    ensures { result ≡ any_ahead late.now p m }
{
    is_ahead(late, p, m.superclass)
        || is_ahead(late, p, m.first_interface)
        || is_ahead(late, p, m.second_interface)
}

// Looks ahead for the classes, once, where a superclass or interface has no earlier record; answers whether that was done.
// Two flags in a routine of its own: one clause says what the entries are in each case; inside check_records the loop's proof did not close.
#[tactic(auto, using(crate::proofs::LateMakes::look_before, crate::proofs::LateMakes::look_none, crate::proofs::LateMakes::look_made))]
fn look(t: &[u8], me: Cursor, late: &mut [u16], missing: bool, looked: bool) -> bool
    requires { CursorAt t.now me × (length t.now ≤ 60000) }
    ensures answer { result ≡ (looked || missing) }
    ensures late_after { late.new ≡ late_looked t.now me.at missing looked late.old }
{
    if looked {
        return true;
    }
    if !missing {
        return false;
    }
    look_ahead(t, me, late);
    true
}

// The record h where the walk w is, by itself, behind the names; `before` is the kind before it, or Class where that is none or a name, so that a name falls.
// The id check gets the highest id and the number of names, and no table: each clause is for every table in which the record stands so.
#[tactic(auto, using(crate::proofs::OwnFaults::own_rules))]
fn check_own(w: TableWalk, h: Head, before: RecordKind) -> Result<(), TableFault>
    ensures { (t : List ℕ) → Asked t w h before → checked_number result ≡ own_fault_at t w.here }
{
    if h.kind.number() < before.number() {
        return Err(TableFault::KindFalls);
    }
    if !id_defined(h.top, w.names) {
        return Err(TableFault::UndefinedId);
    }
    if h.repeated {
        return Err(TableFault::KeyRepeated);
    }
    Ok(())
}

// What the record h at me, which is no name, does in the index of the records before it; nothing where an earlier one has its key.
fn entry_for(t: &[u8], x: &[u16], me: Cursor, h: Head) -> Option<Entry>
    requires { Prepared t.now x.now me h × (record_kind_number h.kind ≡ 1 → ⊥) }
    ensures { EntryIs t.now x.now me result }
{
    if h.kind == RecordKind::Function {
        let b = key_bucket(RecordKind::Function.number(), h.one, h.two);
        return Some(Entry::List(list_reduced(b, t.len())));
    }
    let key = Key::Ids {
        kind: h.kind.number(),
        one: h.one,
        two: h.two,
    };
    let b = tree_of(t, key);
    // An empty root, told before any search is called, as that was measured to be faster (docs/history/speed.md).
    if place_at(x, 1 + b).is_none() {
        return Some(Entry::Tree(1 + b));
    }
    match search(t, x, key, b) {
        Ok(_) => None,
        Err(at) => Some(Entry::Tree(at)),
    }
}

// The record h at me beside the others; `missing` are those of its superclass and interfaces that have no earlier record.
#[tactic(auto, using(record::proofs::RecordSizes::stands_own), unfolding(record::specs::Inside::HeadFault::key_fault, ty::specs::Choose::choose))]
fn check_key(
    t: &[u8],
    late: &[u16],
    me: Cursor,
    h: Head,
    entry: Option<Entry>,
    missing: Missing,
) -> Result<(), TableFault>
    requires { KeyAsked t.now late.now me h entry missing }
    ensures { checked_number result ≡ key_fault_at t.now me }
{
    if entry.is_none() {
        return Err(TableFault::KeyRepeated);
    }
    if any_ahead(late, me.at, missing) {
        return Err(TableFault::ParentLate);
    }
    if h.error {
        return Err(TableFault::HasError);
    }
    Ok(())
}

// The record at p comes into the index of a table of n bytes.
fn join(x: &mut [u16], n: usize, p: Place, entry: Option<Entry>)
    requires { JoinAsked x.old n p.at entry }
    ensures { x.new ≡ index_joined n p.at entry x.old }
{
    match entry {
        None => {}
        Some(Entry::Tree(at)) => put(x, at, p.entry()),
        Some(Entry::List(b)) => enter(x, n, b, p),
    }
}

// Checks the records of a table that is not too long; `late` is for the classes ahead.
fn check_records(t: &[u8], x: &mut [u16], late: &mut [u16]) -> Result<u16, TableFault>
    requires { (length t.now ≤ 60000) × IndexRoom t.now x.old × LateRoom t.now late.old }
    ensures number { checked_number result ≡ table_fault t.now }
    ensures names { IfOk result (λ n. n ≡ name_count (records_of t.now)) }
    ensures indexed_table { table_fault t.now ≡ 0 → IndexedTable t.now x.new }
    ensures x_after { x.new ≡ index_made t.now x.old }
    ensures late_after { late.new ≡ late_made t.now late.old }
{
    let mut w = check_names(t, x)?;
    // the lowest kind that may stand behind the names: a name there falls below it
    let mut kind = RecordKind::Class;
    let mut looked = false;
    // no range to go over: where the next record begins is known once this one is read
    while w.here.at < t.len() {
        let s = w.step(t);
        let Some(h) = s.head else {
            return Err(TableFault::Malformed);
        };
        check_own(w, h, kind)?;
        let me = w.here;
        let entry = entry_for(t, x, me, h);
        let missing = parents_missing(t, x, me, h);
        looked = look(t, me, late, any_missing(missing), looked);
        check_key(t, late, me, h, entry, missing)?;
        join(x, t.len(), Place { at: me.at }, entry);
        kind = h.kind;
        w = s.next;
    }
    put(x, 0, w.names);
    Ok(w.names)
}

// The same with as many entries for the classes ahead as the table's length asks.
#[tactic(auto, using(index::proofs::Rooms::late_room))]
fn check_sized<const N: usize>(t: &[u8], x: &mut [u16]) -> Result<u16, TableFault>
    requires { (length t.now ≤ 60000) × (late_size (length t.now) ≤ N) × (N ≤ 60000) × IndexRoom t.now x.old }
    ensures number { checked_number result ≡ table_fault t.now }
    ensures names { IfOk result (λ n. n ≡ name_count (records_of t.now)) }
    ensures indexed_table { table_fault t.now ≡ 0 → IndexedTable t.now x.new }
    ensures x_after { x.new ≡ index_made t.now x.old }
{
    let mut late = [0u16; N];
    check_records(t, x, &mut late)
}

// Checks a table: how many names it has, or why it is refused. The lent index becomes that of an accepted table.
#[tactic(auto, using(record::proofs::Faults::long_fault, crate::proofs::IndexMakes::made_long))]
pub fn check_table(table: &[u8], index: &mut [u16]) -> Result<u16, TableFault>
    requires { IndexRoom table.now index.old }
    ensures number { checked_number result ≡ table_fault table.now }
    ensures names { IfOk result (λ n. n ≡ name_count (records_of table.now)) }
    ensures indexed_table { table_fault table.now ≡ 0 → IndexedTable table.now index.new }
    ensures index_after { index.new ≡ index_made table.now index.old }
{
    // An entry for each id that a table of so many bytes can define: 40 built-in names, and a name for each 26 bytes.
    if table.len() <= SHORT_TABLE {
        return check_sized::<118>(table, index);
    }
    if LONGEST_TABLE < table.len() {
        return Err(TableFault::TooLong);
    }
    check_sized::<2347>(table, index)
}
