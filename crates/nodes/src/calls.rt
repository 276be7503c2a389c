// Calls and method calls, before and behind their arguments.
//
// Table, header, id, node, slots and reports are parameters apart: each function that is called takes other ones of them, and slots and reports are lent
// to the arguments in between. count_limit, slot_count, `node < length slots`, `0 < N` and CallAsked are asked: a type of all of these would borrow slots and
// reports.
ghost use Rattle.std.specs.Prelude.{◌+◌, ◌≤◌, ◌<◌, ◌≡◌, length};
ghost use Rattle.area.specs.Diagnostic.{count_limit};
ghost use Rattle.area.specs.Inside.Slot.{slot_count, type_at};
ghost use Rattle.ty.specs.Bytes.{plain_ty};
ghost use Rattle.ty.specs.Name.{id_number};
ghost use Rattle.nodes.specs.Inside.Call.{owner_of, callee_at, owned_at, method_at, method_owner, CallBegun, Begun, verdict_at, CallAsked, FinishedCall};
ghost use Rattle.nodes.specs.Inside.Progress.{FinishedSilently, passed_over};

use crate::progress::{State, finished};
use area::Source;
use area::reports::Reports;
use area::types::{Slot, store, type_of};
use index::table::Table;
use overload::before::{before_call, before_method};
use overload::calls::check_call_args;
use question::Header;
use question::node::skip;
use scoring::args::Args;
use symbol::functions::read_function;
use symbol::lookups::first_function;
use ty::Kind;

// A judged argument row: its arguments, and how far the judgement is behind it.
#[derive(Clone, Copy)]
pub struct RowJudged {
    pub args: Args,
    pub state: State,
}

// A call of an ownerless function: whether there is a list.
pub fn begin_call(
    table: &Table<'_>,
    header: Header,
    id: u16,
    node: usize,
    reports: &mut Reports<'_>,
) -> bool
    requires { reports.old.count < count_limit }
    ensures { CallBegun node (callee_at table.now header id) reports.old reports.new result }
{
    // called for its clause: that the table is accepted, which no clause of first_function tells
    let _ = table.bytes();
    match first_function(table, None, id) {
        None => false,
        Some(_) => {
            before_call(table, header, id, node, reports);
            true
        }
    }
}

// The owner of a method of the object in a slot, whose base is Named, or none.
#[tactic(auto, unfolding(ty::specs::Choose::choose))]
fn owner_of<const N: usize>(slots: &[Slot<N>], m: usize) -> Option<u16>
    ensures { result ≡ owner_of (type_at slots.now m) }
{
    let base = ty::non_null(type_of(slots, m));
    ty::is_kind(base, Kind::Named).then_some(ty::name_of(base))
}

// A method call: whether there is a list of the owner's. Apart from begin_call, since it reads the list's visibility, and asks room for two reports.
fn begin_owned(
    table: &Table<'_>,
    header: Header,
    owner: u16,
    id: u16,
    node: usize,
    reports: &mut Reports<'_>,
) -> bool
    requires { reports.old.count + 2 ≤ count_limit }
    ensures { CallBegun node (owned_at table.now header owner id) reports.old reports.new result }
{
    let bytes = table.bytes();
    match first_function(table, Some(owner), id) {
        None => false,
        Some(first) => {
            let f = read_function(bytes, first);
            before_method(table, header, f.visibility, owner, id, node, reports);
            true
        }
    }
}

// A method call: whose list there is, if there is one. Its object's type lies in the slot behind the call's.
pub fn begin_method<const N: usize>(
    table: &Table<'_>,
    header: Header,
    id: u16,
    node: usize,
    slots: &[Slot<N>],
    reports: &mut Reports<'_>,
) -> Option<u16>
    requires { (node < slot_count) × (reports.old.count + 2 ≤ count_limit) }
    ensures { Begun (method_owner (type_at slots.now (node + 1))) node
        (method_at table.now header id (type_at slots.now (node + 1))) reports.old reports.new result }
{
    let owner = owner_of(slots, node + 1)?;
    begin_owned(table, header, owner, id, node, reports).then_some(owner)
}

// A call without a list: its arguments stay unvisited, and its type is that of a kind without body, each byte as it stands. The table's bytes alone, as nothing
// is looked up.
pub fn unlisted<const N: usize>(
    table: &[u8],
    q: &[u8],
    kind: u8,
    n: u8,
    node: usize,
    s: State,
    slots: &mut [Slot<N>],
) -> State
    requires { (node < length slots.old) × (0 < N) × ((passed_over q.now s n).node ≤ slot_count) }
    ensures { FinishedSilently (passed_over q.now s n) node (plain_ty kind) slots.old slots.new result }
{
    let p = skip(q, s.at, n);
    let e = State {
        at: p.at,
        node: s.node + p.nodes,
        ..s
    };
    // the node stands for its children, which a kind does not read
    store(slots, table, node, node, node, Source::Kind(kind));
    finished(e, node, slots)
}

// A call of a list of functions, once its arguments are judged.
pub fn finish_call<const N: usize>(
    table: &Table<'_>,
    owner: Option<u16>,
    id: u16,
    node: usize,
    row: &RowJudged,
    slots: &mut [Slot<N>],
    reports: &mut Reports<'_>,
) -> State
    requires { CallAsked N slots.old node reports.old (verdict_at table.now slots.old (id_number owner) id node row.now) }
    ensures { FinishedCall row.now.state node (verdict_at table.now slots.old (id_number owner) id node row.now)
        slots.old slots.new reports.old reports.new result }
{
    let source = check_call_args(table, owner, id, node, slots, &row.args, reports);
    // the node stands for its children, which no call's type is read from
    store(slots, table.bytes(), node, node, node, source);
    finished(row.state, node, slots)
}
