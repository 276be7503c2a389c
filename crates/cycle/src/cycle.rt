// The node judge and the argument-row judge.
//
// Space, NodeAsked and RowAsked are asked, and the parameters stand apart: a type of all that they speak of would be taken apart at each call, as a child takes
// the slots and the reports with another state. That there is room for what is reported is part of Within, which goes by the nodes passed.
ghost use Rattle.ty.specs.Name.{id_number};
ghost use Rattle.cycle.specs.Inside.Contract.{Space, NodeAsked, JudgesNode, RowAsked, JudgesRow, CallFits, CallIs};

use area::reports::Reports;
use area::types::Slot;
use index::table::Table;
use nodes::calls::{RowJudged, begin_call, begin_method, finish_call, unlisted};
use nodes::progress::{State, argument_name, inside};
use nodes::rule::{finish_binary, finish_member, finish_named, finish_unary, judge_leaf};
use question::Header;
use question::node::{Node, node_at};
use scoring::args::{Arg, Args};
use ty::Kind;

// Judges the tree whose root stands at s.at and has number s.node. Its type comes to lie in that number's slot.
#[cycle(judge_node_judge_row)]
pub fn judge_node(
    table: &Table<'_>,
    q: &[u8],
    header: Header,
    s: State,
    slots: &mut [Slot<256>],
    reports: &mut Reports<'_>,
) -> State
    requires { Space q.now slots.old × NodeAsked q.now s reports.old }
    ensures { JudgesNode table.now q.now header s slots.old slots.new reports.old reports.new result }
{
    let node = s.node;
    let bytes = table.bytes();
    let Ok(read) = node_at(q, s.at) else {
        return s; // an accepted question has a node here
    };
    match read {
        Node::Leaf { len, top: _ } => judge_leaf(q, len, s, slots),
        Node::Binary { op } => {
            let l = judge_node(table, q, header, inside(s, 2), slots, reports);
            let r = judge_node(table, q, header, l, slots, reports);
            finish_binary(table, op, node, l.node, r, slots, reports)
        }
        Node::Unary { op } => {
            let x = judge_node(table, q, header, inside(s, 2), slots, reports);
            finish_unary(bytes, op, node, x, slots, reports)
        }
        Node::Named { id: _ } => {
            let x = judge_node(table, q, header, inside(s, 3), slots, reports);
            finish_named(bytes, node, x, slots)
        }
        Node::Member { id } => {
            let x = judge_node(table, q, header, inside(s, 3), slots, reports);
            finish_member(table, header, id, node, x, slots, reports)
        }
        Node::Call { id, count } => {
            let s = inside(s, 4);
            if !begin_call(table, header, id, node, reports) {
                return unlisted(bytes, q, Kind::Error as u8, count, node, s, slots);
            }
            judge_call(table, q, header, None, id, node, s, count, slots, reports)
        }
        // Apart from a call: the object is judged first, and its type gives an owner.
        Node::Method { id, count } => {
            let x = judge_node(table, q, header, inside(s, 4), slots, reports);
            match begin_method(table, header, id, node, slots, reports) {
                None => unlisted(bytes, q, Kind::Any as u8, count, node, x, slots),
                Some(owner) => {
                    let owner = Some(owner);
                    judge_call(table, q, header, owner, id, node, x, count, slots, reports)
                }
            }
        }
    }
}

// Judges n arguments, the first of which stands at s.at, and the call at a node of an owner's functions. Apart from `judge_node`, whose frame would then hold
// a row's 16 arguments at each node.
#[cycle(judge_node_judge_row)]
fn judge_call(
    table: &Table<'_>,
    q: &[u8],
    header: Header,
    owner: Option<u16>,
    id: u16,
    node: usize,
    s: State,
    n: u8,
    slots: &mut [Slot<256>],
    reports: &mut Reports<'_>,
) -> State
    requires { Space q.now slots.old × RowAsked q.now s reports.old 0 n × CallFits table.now q.now header (id_number owner) id node s n slots.old reports.old }
    ensures { CallIs table.now q.now header (id_number owner) id node s n slots.old slots.new reports.old reports.new result }
{
    let row = judge_row(table, q, header, s, n, slots, reports);
    finish_call(table, owner, id, node, &row, slots, reports)
}

// Judges n arguments, the first of which stands at s.at.
#[cycle(judge_node_judge_row)]
fn judge_row(
    table: &Table<'_>,
    q: &[u8],
    header: Header,
    s: State,
    n: u8,
    slots: &mut [Slot<256>],
    reports: &mut Reports<'_>,
) -> RowJudged
    requires { Space q.now slots.old × RowAsked q.now s reports.old 0 n }
    ensures { JudgesRow table.now q.now header s n slots.old slots.new reports.old reports.new result }
{
    let mut args = Args::new();
    let mut e = s;
    for _k in 0..n {
        args.push(Arg {
            node: e.node,
            name: argument_name(q, e.at),
        });
        e = judge_node(table, q, header, e, slots, reports);
    }
    RowJudged { args, state: e }
}
