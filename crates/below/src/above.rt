// Whether a class is above another one, for some classes of a table by their marks.
ghost use Rattle.std.specs.Prelude.{◌≡◌, ◌<◌, ◌≤◌, List, ℕ, length, IfSome, get_or};
ghost use Rattle.below.specs.Below.{is_below};
ghost use Rattle.below.specs.Inside.Marks.{Unmarked, MarksOf};
ghost use Rattle.below.specs.Inside.RecordParents.{ParentedIs};
ghost use Rattle.symbol.specs.Lookup.{symbols_of};

use crate::marks::{has_mark, mark_parents, sweep};
use crate::parents::{ClassRecords, Parented, parents_of};
use index::table::Table;
use std::marker::Model;

// So many ids are enough: 40 built-in names, and at most 2,307 names of 26 bytes in a table of 60,000 bytes.
pub const IDS: usize = 2347;

// Whether a class is above one that has a parent, with marks for that one alone.
fn is_met(table: &Table<'_>, found: Parented, above: u16, marks: &mut [u16]) -> bool
    requires { ((a : ℕ) × ParentedIs table.now a found) × Unmarked marks.old }
    ensures { (a : ℕ) → ParentedIs table.now a found → result ≡ is_below (symbols_of table.now) a above }
{
    mark_parents(marks, found.parents, 1);
    sweep(&ClassRecords::of(table), found.number, marks);
    has_mark(marks, 0, above)
}

// The same, with the marks in a frame of its own, which a question that is answered without marks does not reserve.
#[inline(never)]
fn is_met_alone(table: &Table<'_>, found: Parented, above: u16) -> bool
    requires { (a : ℕ) × ParentedIs table.now a found }
    ensures { (a : ℕ) → ParentedIs table.now a found → result ≡ is_below (symbols_of table.now) a above }
{
    let mut marks = [0u16; IDS];
    is_met(table, found, above, &mut marks)
}

// Whether a class is above another one. Nothing is above a class without parents, and a parent needs no marks.
pub fn is_below(table: &Table<'_>, class: u16, above: u16) -> bool
    ensures { result ≡ is_below (symbols_of table.now) class above }
{
    match parents_of(table, class) {
        None => false,
        Some(found) => found.parents.has(above) || is_met_alone(table, found, above),
    }
}

// A table, and the ids above some of its classes.
#[derive(Drop)]
pub struct Above<'a> {
    table: &'a Table<'a>,
    classes: &'a [u16],
    marks: &'a [u16],
}

impl<'a> Model for Above<'a> {
    ghost Value = { List ℕ };

    ghost view = { λ a. a.table.now };

    ghost invariant = { λ a. (length a.classes.now ≤ 16) × MarksOf (symbols_of a.table.now) a.classes.now a.marks.now };
}

impl<'a> Above<'a> {
    // Of no class.
    #[tactic(auto, using(crate::proofs::AnyParent::no_classes))]
    pub fn none(table: &'a Table<'a>) -> Above<'a>
        ensures { result ≡ table.now }
    {
        Above {
            table,
            classes: &[],
            marks: &[],
        }
    }

    // Of some classes, by their marks.
    pub fn of(table: &'a Table<'a>, classes: &'a [u16], marks: &'a [u16]) -> Above<'a>
        requires { (length classes.now ≤ 16) × MarksOf (symbols_of table.now) classes.now marks.now }
        ensures { result ≡ table.now }
    {
        Above {
            table,
            classes,
            marks,
        }
    }

    // The table.
    pub fn table(&self) -> &'a Table<'a>
        ensures { result.now ≡ self.now }
    {
        self.table
    }

    // Whether a class is above another one. For one of the classes a bit is read; for any other marks of its own are made.
    pub fn is_below(&self, class: u16, above: u16) -> bool
        ensures { result ≡ is_below (symbols_of self.now) class above }
    {
        match place_of(self.classes, class) {
            Some(j) => has_mark(self.marks, j, above),
            None => is_below(self.table, class, above),
        }
    }
}

// The place of a class among some.
fn place_of(classes: &[u16], class: u16) -> Option<usize>
    ensures { IfSome result (λ j. (j < length classes.now) × (get_or classes.now j 0 ≡ class)) }
{
    classes.iter().position(|c| *c == class)
}
