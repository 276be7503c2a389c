// Room for the index and the slots: little is cleared for a short table and a short question.
// Table, question, diagnostics and type are parameters apart: the clauses say of each lent buffer what is in it before and behind, and would take a struct
// of them apart. Clear, Ready and IndexRoom are asked: they say that what is lent is still zero, which is no longer so behind, so that no type can have it as
// its invariant. Space and the limit of 60,000 speak of two parameters at once, and the limits of N and SLOTS of a constant parameter, which has no invariant.
ghost use Rattle.std.specs.Prelude.{◌≤◌, ◌≡◌, length};
ghost use Rattle.area.specs.Inside.Slot.{slot_count};
ghost use Rattle.cycle.specs.Inside.Contract.{Space, slots_for};
ghost use Rattle.index.specs.Inside.Index.{index_size};
ghost use Rattle.index.specs.Inside.IndexedTable.{IndexRoom};
ghost use Rattle.record.specs.Table.{records_of, name_count};
ghost use Rattle.record.specs.TableRefused.{table_fault};
ghost use Rattle.judge.specs.Answered.{AnsweredInto};
ghost use Rattle.judge.specs.Inside.Room.{Clear, Ready, JudgedIn, IndexedIn};

use crate::root::answer_root;
use crate::{Judged, Refusal};
use area::reports::Reports;
use area::types::{Slot, type_of};
use cycle::cycle::judge_node;
use index::index::TableSize;
use index::table::Table;
use nodes::progress::State;
use question::{Names, check_question, read_header};
use std::array;
use symbol::checks::check_table;

// A question of so many bytes has at most 8 nodes.
const SHORT_QUESTION: usize = 21;

// A question of so many bytes has at most 32 nodes.
const MIDDLE_QUESTION: usize = 69;

// Judges a question against a table, with an index that goes by the table's length: one entry is enough for an empty table.
#[tactic(auto, using(crate::proofs::Sizes::index_short, crate::proofs::Sizes::index_middle, crate::proofs::Sizes::index_long))]
pub fn judge_sized(
    table: &[u8],
    question: &[u8],
    diagnostics: &mut [u8],
    ty: &mut [u8],
) -> Result<Judged, Refusal>
    requires { Clear diagnostics.old ty.old }
    ensures { AnsweredInto table.now question.now diagnostics ty result }
{
    if table.is_empty() {
        let index = [0u16; 1];
        return judge_checked(&Table::new(table, &index), 0, question, diagnostics, ty);
    }
    // the sizes are arms, as an array's length is a constant: each is the largest index of a table of that size (crate index)
    match TableSize::of(table.len()) {
        TableSize::Short => judge_with_room::<1461>(table, question, diagnostics, ty),
        TableSize::Middle => judge_with_room::<11163>(table, question, diagnostics, ty),
        TableSize::Long => judge_with_room::<42435>(table, question, diagnostics, ty),
    }
}

// Judges a question against a table, for whose index N entries are enough.
fn judge_with_room<const N: usize>(
    table: &[u8],
    question: &[u8],
    diagnostics: &mut [u8],
    ty: &mut [u8],
) -> Result<Judged, Refusal>
    requires clear { Clear diagnostics.old ty.old }
    requires enough { length table.now ≤ 60000 → index_size (length table.now) ≤ N }
    requires few { N ≤ 42435 }
    ensures { AnsweredInto table.now question.now diagnostics ty result }
{
    let mut index = [0u16; N];
    judge_with(table, &mut index, question, diagnostics, ty)
}

// Judges a question against a table, whose index is made in what is lent for it.
fn judge_with(
    table: &[u8],
    index: &mut [u16],
    question: &[u8],
    diagnostics: &mut [u8],
    ty: &mut [u8],
) -> Result<Judged, Refusal>
    requires { Clear diagnostics.old ty.old × IndexRoom table.now index.old }
    ensures answered_into { AnsweredInto table.now question.now diagnostics ty result }
    ensures indexed_in { IndexedIn table.now index }
{
    let names = check_table(table, index)?;
    judge_checked(&Table::new(table, index), names, question, diagnostics, ty)
}

// Judges a question against an accepted table, which has so many names. That it is accepted is asked, here and in Ready, though Table's invariant has it: else
// it would be known by a call of table.bytes(), whose bytes nothing reads here.
fn judge_checked(
    table: &Table<'_>,
    names: u16,
    question: &[u8],
    diagnostics: &mut [u8],
    ty: &mut [u8],
) -> Result<Judged, Refusal>
    requires { Clear diagnostics.old ty.old × (table_fault table.now ≡ 0) × (names ≡ name_count (records_of table.now)) }
    ensures { AnsweredInto table.now question.now diagnostics ty result }
{
    check_question(question, Names { count: names })?;
    judge_accepted(table, question, diagnostics, ty)
}

// Judges an accepted question, with as many slots as its length asks.
#[tactic(auto, using(cycle::proofs::Spaces::slots_short, cycle::proofs::Spaces::slots_middle, cycle::proofs::Spaces::slots_few))]
fn judge_accepted(
    table: &Table<'_>,
    question: &[u8],
    diagnostics: &mut [u8],
    ty: &mut [u8],
) -> Result<Judged, Refusal>
    requires { Ready table.now question.now diagnostics.old ty.old }
    ensures { AnsweredInto table.now question.now diagnostics ty result }
{
    if question.len() <= SHORT_QUESTION {
        return judge_in_slots::<8>(table, question, diagnostics, ty);
    }
    if question.len() <= MIDDLE_QUESTION {
        return judge_in_slots::<32>(table, question, diagnostics, ty);
    }
    judge_in_slots::<64>(table, question, diagnostics, ty)
}

// Judges an accepted question, for which so many slots are enough.
fn judge_in_slots<const SLOTS: usize>(
    table: &Table<'_>,
    question: &[u8],
    diagnostics: &mut [u8],
    ty: &mut [u8],
) -> Result<Judged, Refusal>
    requires ready { Ready table.now question.now diagnostics.old ty.old }
    requires few { SLOTS ≤ slot_count }
    requires enough { slots_for (length question.now) ≤ SLOTS }
    ensures { AnsweredInto table.now question.now diagnostics ty result }
{
    let mut slots: [Slot<256>; SLOTS] = array::from_fn(|_| Slot::new());
    judge_in(table, question, &mut slots, diagnostics, ty)
}

// Judges an accepted question in slots that are lent.
fn judge_in(
    table: &Table<'_>,
    question: &[u8],
    slots: &mut [Slot<256>],
    diagnostics: &mut [u8],
    ty: &mut [u8],
) -> Result<Judged, Refusal>
    requires { Ready table.now question.now diagnostics.old ty.old × Space question.now slots.old }
    ensures answered_into { AnsweredInto table.now question.now diagnostics ty result }
    ensures judged_in { JudgedIn table.now question.now slots.old slots.new }
{
    let header = read_header(question);
    let start = State {
        at: 5,
        node: 0,
        fine: true,
    };
    let mut reports = Reports {
        buf: diagnostics,
        count: 0,
    };
    let s = judge_node(table, question, header, start, slots, &mut reports);
    answer_root(s, reports.count, type_of(slots, 0), reports.buf, ty)
}
