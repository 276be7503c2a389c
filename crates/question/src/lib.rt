// The question: a header and one tree of nodes, in bytes.
#![tactic(auto)]

pub mod node;
pub mod operator;

ghost use Rattle.std.specs.Prelude.{◌≡◌, IfOk};
ghost use Rattle.question.specs.Header.{header_of};
ghost use Rattle.question.specs.QuestionRefused.{none_or_defined, header_fault, more_fault, end_fault, tree_fault, question_fault};
ghost use Rattle.question.specs.Inside.Top.{id_fault, read_fault};
ghost use Rattle.question.specs.FaultNumber.{question_fault_number, number_of};
ghost use Rattle.question.specs.Node.{node_read, fault_read, read_of};

use node::{MOST_NODES, Walk};
pub use node::{Node, NodeFault, NodeKind, Skipped};
use ty::name::id_defined;
use ty::{byte_at, id_at, known_id};

// Where the script stands: the current type and package, NameId::NONE for none, and whether in a suspend function.
// Numbers, no Options: Some(65535) would read back as None, so that the law that a written question reads back (specs/ReadBack.antt) would need a premise.
#[derive(Clone, Copy)]
pub struct Header {
    pub current: u16,
    pub pkg: u16,
    pub suspend: bool,
}

// What a question asks of the table's names: how many there are.
#[derive(Clone, Copy)]
pub struct Names {
    pub count: u16,
}

// Why a question is refused, by the lowest number of its first fault.
#[derive(Clone, Copy, PartialEq, Eq)]
pub enum QuestionFault {
    // Over 16,384 bytes, malformed, cut, or with bytes behind the tree.
    Malformed = 8,
    // A 65th node.
    ManyNodes,
    UndefinedId,
    // A leaf's type without end in 192 bytes.
    EndlessType,
}

impl QuestionFault {
    pub fn number(self) -> u8
        ensures { result ≡ question_fault_number self }
    {
        self as u8
    }
}

const LONGEST_QUESTION: usize = 16384;

// How many bytes a question's header has.
pub const HEADER_BYTES: usize = 5;

// The header of a question, with 0 for each byte that is not there.
#[tactic(auto, unfolding(crate::specs::Header::header_of))]
pub fn read_header(question: &[u8]) -> Header
    ensures { result ≡ header_of question.now }
{
    Header {
        current: id_at(question, 0),
        pkg: id_at(question, 2),
        suspend: byte_at(question, 4) == 1,
    }
}

#[tactic(auto, using(ty::proofs::Known::none_known, ty::proofs::Known::some_known))]
fn none_or_defined(id: u16, names: Names) -> bool
    ensures { result ≡ none_or_defined names id }
{
    known_id(id).is_none_or(|id| id_defined(id, names.count))
}

// The header is there, and its ids are none or defined.
#[tactic(auto, unfolding(crate::specs::QuestionRefused::header_fault, ty::specs::Choose::choose))]
fn check_header(question: &[u8], names: Names) -> Result<(), QuestionFault>
    ensures { number_of result ≡ header_fault names question.now }
{
    if (question.len() < HEADER_BYTES) | (1 < byte_at(question, 4)) {
        return Err(QuestionFault::Malformed);
    }
    let h = read_header(question);
    if none_or_defined(h.current, names) & none_or_defined(h.pkg, names) {
        return Ok(());
    }
    Err(QuestionFault::UndefinedId)
}

#[tactic(auto, unfolding(crate::specs::Inside::Top::id_fault, ty::specs::Choose::choose))]
fn check_id(id: u16, names: Names) -> Result<(), QuestionFault>
    ensures { number_of result ≡ id_fault names id }
{
    if id_defined(id, names.count) {
        Ok(())
    } else {
        Err(QuestionFault::UndefinedId)
    }
}

// Checks the ids of one of the first 64 nodes by the highest of them.
#[tactic(auto, unfolding(crate::specs::Inside::Top::read_fault))]
fn check_node(node: Node, names: Names) -> Result<(), QuestionFault>
    ensures { number_of result ≡ read_fault names (node_read node) }
{
    match node {
        Node::Leaf { len: _, top } => check_id(top, names),
        Node::Binary { op: _ } | Node::Unary { op: _ } => Ok(()),
        Node::Named { id } | Node::Member { id } => check_id(id, names),
        Node::Call { id, count: _ } | Node::Method { id, count: _ } => check_id(id, names),
    }
}

// The fault where no node was read. A leaf's type without end is UndefinedId if its highest id is undefined.
#[tactic(auto, unfolding(crate::specs::Inside::Top::read_fault, crate::specs::Inside::Top::endless_fault, ty::specs::Choose::choose))]
fn unread(fault: NodeFault, names: Names) -> QuestionFault
    ensures { question_fault_number result ≡ read_fault names (fault_read fault) }
{
    match fault {
        NodeFault::Bad => QuestionFault::Malformed,
        NodeFault::Endless { top } if id_defined(top, names.count) => QuestionFault::EndlessType,
        NodeFault::Endless { top: _ } => QuestionFault::UndefinedId,
    }
}

// Checks what was read of one of the first 64 nodes: its fault, or its ids.
fn checked(read: Result<Node, NodeFault>, names: Names) -> Result<Node, QuestionFault>
    ensures number { number_of result ≡ read_fault names (read_of read) }
    ensures node { IfOk result (λ node. read ≡ Ok node) }
{
    match read {
        Ok(node) => {
            check_node(node, names)?;
            Ok(node)
        }
        Err(fault) => Err(unread(fault, names)),
    }
}

// A 65th node.
#[tactic(auto, unfolding(crate::specs::QuestionRefused::more_fault))]
fn more(read: Result<Node, NodeFault>) -> QuestionFault
    ensures { question_fault_number result ≡ more_fault (read_of read) }
{
    match read {
        Err(NodeFault::Bad) => QuestionFault::Malformed, // the lower number
        _ => QuestionFault::ManyNodes,
    }
}

// What stands where the tree ends.
#[tactic(auto, unfolding(crate::specs::QuestionRefused::end_fault, ty::specs::Choose::choose))]
fn check_end(question: &[u8], at: usize) -> Result<(), QuestionFault>
    ensures { number_of result ≡ end_fault question.now at }
{
    if at == question.len() {
        Ok(())
    } else {
        Err(QuestionFault::Malformed)
    }
}

// The nodes in byte order, and what stands behind them.
#[tactic(auto, using(crate::proofs::Walking::check_steps), unfolding(crate::specs::QuestionRefused::tree_fault))]
fn check_tree(question: &[u8], names: Names) -> Result<(), QuestionFault>
    ensures { number_of result ≡ tree_fault names question.now }
{
    let mut walk = Walk {
        at: HEADER_BYTES,
        pending: 1,
    };
    for _passed in 0..MOST_NODES {
        let Some(read) = walk.step(question) else {
            return check_end(question, walk.at);
        };
        checked(read, names)?;
    }
    match walk.step(question) {
        None => check_end(question, walk.at),
        Some(read) => Err(more(read)),
    }
}

// Whether a question is accepted, or why it is refused.
#[tactic(auto, using(crate::proofs::QuestionFaults::faults), unfolding(crate::specs::QuestionRefused::question_fault, ty::specs::Choose::choose))]
pub fn check_question(question: &[u8], names: Names) -> Result<(), QuestionFault>
    ensures { number_of result ≡ question_fault names question.now }
{
    if LONGEST_QUESTION < question.len() {
        return Err(QuestionFault::Malformed);
    }
    check_header(question, names)?;
    check_tree(question, names)
}
