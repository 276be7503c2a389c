// Marks: each id has a mask, of which bit j says that the id is above class j.
ghost use Rattle.std.specs.Prelude.{◌≡◌, ◌≢◌, ◌<◌, ◌≤◌, ℕ, false, length, get_or, []};
ghost use Rattle.below.specs.Inside.Marks.{id_count, has_bit, has_mark, with_id_if, with_parents_if, turn, swept, Unmarked, MarksOf};
ghost use Rattle.below.specs.Inside.RecordParents.{any_has_parent, ParentsOf, ParentsBelow, ParentsEarly, ParentsMarked};
ghost use Rattle.symbol.specs.Inside.ClassRun.{class_at};
ghost use Rattle.symbol.specs.Lookup.{symbols_of};
ghost use Rattle.symbol.specs.Symbols.{Symbols};
ghost use Rattle.ty.specs.Name.{no_id};

use crate::parents::{ClassRecords, Parents, parents_of};
use index::table::Table;
use ty::NameId;

// The mask of an id, with 0 past the end.
fn mask_of(marks: &[u16], id: u16) -> u16
    ensures { result ≡ get_or marks.now id 0 }
{
    marks.get(id as usize).copied().unwrap_or(0)
}

// Whether an id is above class j.
#[tactic(auto, unfolding(crate::specs::Inside::Marks::has_mark, crate::specs::Inside::Marks::has_bit))]
pub fn has_mark(marks: &[u16], j: usize, id: u16) -> bool
    requires { j < 16 }
    ensures { result ≡ has_mark marks.now j id }
{
    (mask_of(marks, id) >> j) % 2 == 1
}

// An id, if it is one, gets the bits of a mask.
fn mark(marks: &mut [u16], id: u16, mask: u16)
    requires { id ≢ no_id → id < length marks.old }
    ensures bits { (j : ℕ) → has_mark marks.new j ≡ with_id_if (has_bit mask j) (has_mark marks.old j) id }
    ensures long { length marks.new ≡ length marks.old }
{
    if id != NameId::NONE {
        marks[id as usize] |= mask;
    }
}

// The parents of a class get the bits of a mask.
pub fn mark_parents(marks: &mut [u16], parents: Parents, mask: u16)
    requires { (id_count ≤ length marks.old) × ParentsBelow id_count parents }
    ensures bits { (S : Symbols) (a j : ℕ) → ParentsOf S a parents → has_mark marks.new j ≡ with_parents_if S (has_bit mask j) (has_mark marks.old j) a }
    ensures long { length marks.new ≡ length marks.old }
{
    mark(marks, parents.superclass, mask);
    mark(marks, parents.first_interface, mask);
    mark(marks, parents.second_interface, mask);
}

// The turn of class record i in the sweep: its parents get the bits of its class.
fn pass_on(records: &ClassRecords<'_>, i: usize, marks: &mut [u16])
    requires { (i < (symbols_of records.now).classes) × (id_count ≤ length marks.old) }
    ensures bits { (j : ℕ) → has_mark marks.new j ≡ turn (symbols_of records.now) (class_at records.now) i (has_mark marks.old j) }
    ensures long { length marks.new ≡ length marks.old }
{
    let mask = mask_of(marks, records.class_at(i));
    if mask != 0 {
        mark_parents(marks, records.parents_at(i), mask);
    }
}

// The sweep over the class records before record i, from the last to the first. Parents with a record stand earlier, so that once is enough.
pub fn sweep(records: &ClassRecords<'_>, i: usize, marks: &mut [u16])
    requires { (i ≤ (symbols_of records.now).classes) × (id_count ≤ length marks.old) }
    ensures bits { (j : ℕ) → has_mark marks.new j ≡ swept (symbols_of records.now) (class_at records.now) i (has_mark marks.old j) }
    ensures long { length marks.new ≡ length marks.old }
{
    let mut left = i;
    while 0 < left {
        left -= 1;
        pass_on(records, left, marks);
    }
}

// The parents of a class get the bits of a mask. How many class records have to be swept then: those before the class's own, and none where it has no parent.
fn mark_class(table: &Table<'_>, class: u16, mask: u16, marks: &mut [u16]) -> usize
    requires { id_count ≤ length marks.old }
    ensures bits { (j : ℕ) → has_mark marks.new j ≡ with_parents_if (symbols_of table.now) (has_bit mask j) (has_mark marks.old j) class }
    ensures long { length marks.new ≡ length marks.old }
    ensures early { ParentsEarly table.now class result }
{
    match parents_of(table, class) {
        Some(found) => {
            mark_parents(marks, found.parents, mask);
            found.number
        }
        None => 0,
    }
}

// The parents of class j get bit j. How many class records have to be swept then.
fn mark_classes(table: &Table<'_>, classes: &[u16], marks: &mut [u16]) -> usize
    requires { (length classes.now ≤ 16) × Unmarked marks.old }
    ensures { ParentsMarked table.now classes.now (length classes.now) result marks.new }
{
    let mut records = 0;
    for (j, class) in classes.iter().enumerate() {
        let these = mark_class(table, *class, 1 << j, marks);
        records = usize::max(records, these);
    }
    records
}

// Makes the marks of some classes.
pub fn mark_above(table: &Table<'_>, classes: &[u16], marks: &mut [u16])
    requires { (length classes.now ≤ 16) × Unmarked marks.old }
    ensures marks { MarksOf (symbols_of table.now) classes.now marks.new }
    ensures long { length marks.new ≡ id_count }
{
    let records = ClassRecords::of(table);
    let count = mark_classes(table, classes, marks);
    sweep(&records, count, marks);
}

// Whether any of some classes has a parent. Where none has, no marks are those of these classes.
pub fn any_parent(table: &Table<'_>, classes: &[u16]) -> bool
    ensures any { result ≡ any_has_parent (symbols_of table.now) classes.now }
    ensures unmarked { result ≡ false → MarksOf (symbols_of table.now) classes.now [] }
{
    for class in classes {
        if parents_of(table, *class).is_some() {
            return true;
        }
    }
    false
}
