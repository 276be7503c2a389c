// Nodes whose type goes by their children's types: leaves, named arguments, operators and members.
//
// Table, header, id, node, state and slots are parameters apart: the state goes by value and is handed back, the slots are lent on to the children, and a
// struct of them would be taken apart in each function. finish_named and finish_unary take the table's bytes alone, as they look nothing up. Child, `.. ≤ N`,
// count_limit, LeafAsked and RuleAsked are asked: they speak of a node, the slots and the reports at once, and a type of these would borrow them all.
ghost use Rattle.std.specs.Prelude.{◌+◌, ◌<◌, ◌≤◌, ◌≡◌, length};
ghost use Rattle.area.specs.Diagnostic.{count_limit};
ghost use Rattle.area.specs.Reported.{reported};
ghost use Rattle.operators.specs.Diag.{reported_at as at_node};
ghost use Rattle.operators.specs.Inside.Ruled.{reports_of, out_of};
ghost use Rattle.area.specs.Inside.Slot.{Child, type_at};
ghost use Rattle.nodes.specs.Inside.Progress.{inside_of, FinishedSilently};
ghost use Rattle.nodes.specs.Inside.Rule.{LeafAsked, RuleAsked, leaf_at, ruled_at, binary_at, unary_at, member_at};
ghost use Rattle.nodes.specs.Inside.Rule.{FinishedAs};

use crate::progress::{State, finished, inside};
use area::Source;
use area::reports::Reports;
use area::types::{Slot, store, store_part, type_of};
use index::table::Table;
use operators::binary::check_binary;
use operators::ruled::{Diagnostic, Ruled};
use operators::unary::check_unary;
use question::Header;
use rules::member::check_member;
use ty::Part;

// A leaf's type is its own.
pub fn judge_leaf<const N: usize>(q: &[u8], len: u16, s: State, slots: &mut [Slot<N>]) -> State
    requires { LeafAsked N q.now slots.old len s }
    ensures { FinishedSilently (inside_of s (len + 1)) s.node (leaf_at q.now s len) slots.old slots.new result }
{
    let node = s.node;
    let len = len as usize;
    let start = s.at + 1;
    store_part(slots, q, node, Part { start, len });
    let e = inside(s, len + 1);
    finished(e, node, slots)
}

// A named argument's type is its value's.
pub fn finish_named<const N: usize>(
    table: &[u8],
    node: usize,
    s: State,
    slots: &mut [Slot<N>],
) -> State
    requires { Child slots.old node (node + 1) × (length (type_at slots.old (node + 1)) ≤ N) }
    ensures { FinishedSilently s node (type_at slots.old (node + 1)) slots.old slots.new result }
{
    let first = node + 1;
    // the only child stands for a second, which First does not read
    store(slots, table, node, first, first, Source::First);
    finished(s, node, slots)
}

// A diagnostic of a rule, if there is one; a kind of 0 is no report.
#[tactic(auto, using(crate::proofs::Working::reported_none, crate::proofs::Working::kind_none, crate::proofs::Working::kind_one))]
fn report_one(reports: &mut Reports<'_>, node: usize, d: Option<Diagnostic>)
    requires { reports.old.count < count_limit }
    ensures { reports.new ≡ reported reports.old (at_node node (reports_of d)) }
{
    if let Some(d) = d {
        if d.kind != 0 {
            reports.report(d.kind, node, d.number as usize);
        }
    }
}

// A node whose children are judged and whose rule has answered.
fn finish_rule<const N: usize>(
    table: &[u8],
    ruled: Ruled,
    node: usize,
    second: usize,
    s: State,
    slots: &mut [Slot<N>],
    reports: &mut Reports<'_>,
) -> State
    requires { RuleAsked N slots.old node second reports.old (ruled_at table.now slots.old ruled (node + 1) second) }
    ensures { FinishedAs s node (ruled_at table.now slots.old ruled (node + 1) second) slots.old slots.new reports.old reports.new result }
{
    report_one(reports, node, ruled.first);
    report_one(reports, node, ruled.second);
    store(slots, table, node, node + 1, second, ruled.source);
    finished(s, node, slots)
}

// A binary operator, by its byte; the right operand's number is `second`.
#[tactic(auto, using(crate::proofs::Working::ruled_as, operators::proofs::Ruling::binary_is))]
pub fn finish_binary<const N: usize>(
    table: &Table<'_>,
    op: u8,
    node: usize,
    second: usize,
    s: State,
    slots: &mut [Slot<N>],
    reports: &mut Reports<'_>,
) -> State
    requires { RuleAsked N slots.old node second reports.old (binary_at table.now slots.old op (node + 1) second) }
    ensures { FinishedAs s node (binary_at table.now slots.old op (node + 1) second) slots.old slots.new reports.old reports.new result }
{
    let left = type_of(slots, node + 1);
    let right = type_of(slots, second);
    let ruled = check_binary(table, op, left, right);
    finish_rule(table.bytes(), ruled, node, second, s, slots, reports)
}

// A unary operator, by its byte.
#[tactic(auto, using(crate::proofs::Working::ruled_as, operators::proofs::Ruling::unary_is))]
pub fn finish_unary<const N: usize>(
    table: &[u8],
    op: u8,
    node: usize,
    s: State,
    slots: &mut [Slot<N>],
    reports: &mut Reports<'_>,
) -> State
    requires { RuleAsked N slots.old node (node + 1) reports.old (unary_at slots.old op (node + 1)) }
    ensures { FinishedAs s node (unary_at slots.old op (node + 1)) slots.old slots.new reports.old reports.new result }
{
    let first = node + 1;
    let ruled = check_unary(op, type_of(slots, first));
    finish_rule(table, ruled, node, first, s, slots, reports)
}

// A member of an object.
#[tactic(auto, using(crate::proofs::Working::ruled_as, rules::proofs::MemberRuling::member_is))]
pub fn finish_member<const N: usize>(
    table: &Table<'_>,
    header: Header,
    id: u16,
    node: usize,
    s: State,
    slots: &mut [Slot<N>],
    reports: &mut Reports<'_>,
) -> State
    requires { RuleAsked N slots.old node (node + 1) reports.old (member_at table.now slots.old header id (node + 1)) }
    ensures { FinishedAs s node (member_at table.now slots.old header id (node + 1)) slots.old slots.new reports.old reports.new result }
{
    let first = node + 1;
    let ruled = check_member(table, header, id, type_of(slots, first));
    finish_rule(table.bytes(), ruled, node, first, s, slots, reports)
}
