// The nodes of a question's tree.
ghost use Rattle.std.specs.Prelude.{◌≡◌, ◌<◌, ◌^◌};
ghost use Rattle.ty.specs.Read.{read_type, longest_type};
ghost use Rattle.ty.specs.Choose.{choose};
ghost use Rattle.question.specs.NodeKind.{node_kind_number, NodeKindIs};
ghost use Rattle.question.specs.NodeRead.{Bad, leaf_of, node_of, node_in, node_at, own_bytes, children as children_of};
ghost use Rattle.question.specs.Node.{node_read, read_of, leaf_fault};
ghost use Rattle.question.specs.Inside.Skip.{skip_at};
ghost use Rattle.question.specs.Inside.WalkStep.{WalkStep};
ghost use Rattle.question.specs.declared.node.NodeFault.TheVariants.{Bad as BadNode};

use crate::operator::{BinOp, UnOp};
use ty::read::{TypeFault, read_type};
use ty::{Kind, UnknownNumber, byte_at, id_at, kind_of, tail};

// The kinds of a node, in the order of their numbers.
#[derive(Clone, Copy, PartialEq, Eq)]
pub enum NodeKind {
    Leaf,
    Binary,
    Unary,
    Named,
    Member,
    Call,
    Method,
}

impl NodeKind {
    // The byte that stands for a kind.
    pub fn number(self) -> u8
        ensures { result ≡ node_kind_number self }
    {
        self as u8
    }
}

impl TryFrom<u8> for NodeKind {
    type Error = UnknownNumber;

    ghost try_from_gives = { NodeKindIs };

    fn try_from(byte: u8) -> Result<Self, UnknownNumber> {
        match byte {
            0 => Ok(NodeKind::Leaf),
            1 => Ok(NodeKind::Binary),
            2 => Ok(NodeKind::Unary),
            3 => Ok(NodeKind::Named),
            4 => Ok(NodeKind::Member),
            5 => Ok(NodeKind::Call),
            6 => Ok(NodeKind::Method),
            _ => Err(UnknownNumber(byte)),
        }
    }
}

// What stands at a position of the question: a node's own bytes, without its children.
#[derive(Clone, Copy)]
pub enum Node {
    // A type of len bytes stands behind the kind; top is the highest id in it, 0 for none: an
    // Option is no plainer, as 0 is the id of a name that each table defines.
    Leaf { len: u16, top: u16 },
    // The byte of an operator.
    Binary { op: u8 },
    Unary { op: u8 },
    Named { id: u16 },
    Member { id: u16 },
    Call { id: u16, count: u8 },
    // The object stands before the arguments, and count leaves it out.
    Method { id: u16, count: u8 },
}

// Why no node was read.
#[derive(Clone, Copy)]
pub enum NodeFault {
    // No node: malformed, or cut.
    Bad,
    // A leaf's type without end; top is the highest id that was examined, 0 for none as in a leaf.
    Endless { top: u16 },
}

// No node has a kind or an operator that is unknown.
impl From<UnknownNumber> for NodeFault {
    ghost from_gives = { λ _ fault. fault ≡ BadNode };

    fn from(_: UnknownNumber) -> NodeFault {
        NodeFault::Bad
    }
}

// A leaf whose type was not read is no node, or has no end.
impl From<TypeFault> for NodeFault {
    ghost from_gives = { λ fault node_fault. node_fault ≡ leaf_fault fault };

    fn from(fault: TypeFault) -> NodeFault {
        match fault {
            TypeFault::Cut | TypeFault::Malformed => NodeFault::Bad,
            TypeFault::Endless { top, error: _ } => NodeFault::Endless { top },
        }
    }
}

// Where nodes end: the next position, and how many nodes were passed.
#[derive(Clone, Copy)]
pub struct Skipped {
    pub at: usize,
    pub nodes: usize,
}

const MOST_ARGUMENTS: u8 = 16;

const LONGEST_TYPE: u16 = 192;

pub const MOST_NODES: usize = 64;

// A leaf, whose type stands at the front of some bytes.
#[tactic(auto, using(crate::proofs::Plain::plain_leaf), unfolding(crate::specs::NodeRead::leaf_of))]
fn leaf(s: &[u8]) -> Result<Node, NodeFault>
    ensures { read_of result ≡ leaf_of (read_type s.now longest_type) }
{
    // a kind below Nullable is a type by itself
    if kind_of(s) < Kind::Nullable as u8 {
        return Ok(Node::Leaf { len: 1, top: 0 });
    }
    let read = read_type(s, LONGEST_TYPE)?;
    Ok(Node::Leaf {
        len: read.len as u16,
        top: read.top,
    })
}

// A node whose bytes are there, and none otherwise.
#[tactic(auto, unfolding(ty::specs::Choose::choose))]
fn if_there(there: bool, node: Node) -> Result<Node, NodeFault>
    ensures { read_of result ≡ choose there (node_read node) Bad }
{
    if there { Ok(node) } else { Err(NodeFault::Bad) }
}

// A node that is not a leaf, of which so many bytes are there.
#[tactic(auto, using(crate::proofs::Operators::known_operators), unfolding(crate::specs::NodeRead::node_of, ty::specs::Choose::choose))]
fn node_of(kind: NodeKind, there: usize, op: u8, id: u16, count: u8) -> Result<Node, NodeFault>
    ensures { read_of result ≡ node_of (node_kind_number kind) there op id count }
{
    let called = (4 <= there) & (count <= MOST_ARGUMENTS);
    match kind {
        NodeKind::Leaf => Err(NodeFault::Bad),
        NodeKind::Binary => {
            BinOp::try_from(op)?; // a byte past the last operator is no node
            if_there(2 <= there, Node::Binary { op })
        }
        NodeKind::Unary => {
            UnOp::try_from(op)?;
            if_there(2 <= there, Node::Unary { op })
        }
        NodeKind::Named => if_there(3 <= there, Node::Named { id }),
        NodeKind::Member => if_there(3 <= there, Node::Member { id }),
        NodeKind::Call => if_there(called, Node::Call { id, count }),
        NodeKind::Method => if_there(called, Node::Method { id, count }),
    }
}

// The node at the front of some bytes. Its kind is the first byte, as a type's is.
#[tactic(auto, using(crate::proofs::NodeKinds::unknown_kind), unfolding(crate::specs::NodeRead::node_in, ty::specs::Choose::choose))]
fn node_in(s: &[u8]) -> Result<Node, NodeFault>
    ensures { read_of result ≡ node_in s.now }
{
    match NodeKind::try_from(kind_of(s))? {
        // apart: its type is read before the bytes that other kinds have are looked at
        NodeKind::Leaf => leaf(tail(s, 1)),
        kind => node_of(kind, s.len(), byte_at(s, 1), id_at(s, 1), byte_at(s, 3)),
    }
}

// The node at a position.
#[tactic(auto, unfolding(crate::specs::NodeRead::node_at))]
pub fn node_at(q: &[u8], at: usize) -> Result<Node, NodeFault>
    ensures { read_of result ≡ node_at q.now at }
{
    node_in(tail(q, at))
}

// How many bytes of its own a node has: 0 where none was read.
#[tactic(auto, using(crate::proofs::QuestionFaults::unread_bytes), unfolding(crate::specs::NodeRead::own_bytes))]
pub fn own_bytes(read: Result<Node, NodeFault>) -> usize
    ensures { result ≡ own_bytes (read_of read) }
{
    let Ok(node) = read else {
        return 0; // the walk stays where it is
    };
    match node {
        Node::Leaf { len, top: _ } => len as usize + 1,
        Node::Binary { op: _ } | Node::Unary { op: _ } => 2,
        Node::Named { id: _ } | Node::Member { id: _ } => 3,
        Node::Call { id: _, count: _ } | Node::Method { id: _, count: _ } => 4,
    }
}

// How many children it has: 0 where none was read.
#[tactic(auto, using(crate::proofs::QuestionFaults::unread_children), unfolding(crate::specs::NodeRead::children))]
pub fn children(read: Result<Node, NodeFault>) -> usize
    ensures { result ≡ children_of (read_of read) }
{
    let Ok(node) = read else {
        return 0; // none is to come
    };
    match node {
        Node::Leaf { len: _, top: _ } => 0,
        Node::Binary { op: _ } => 2,
        Node::Unary { op: _ } | Node::Named { id: _ } | Node::Member { id: _ } => 1,
        Node::Call { id: _, count } => count as usize,
        Node::Method { id: _, count } => count as usize + 1,
    }
}

// A walk over the nodes of some trees, in byte order: where the next one stands, and how many trees are still to come.
#[derive(Drop)]
pub struct Walk {
    pub at: usize,
    pub pending: usize,
}

impl Walk {
    // Reads the next node and goes past its own bytes; none where no tree is to come.
    #[tactic(auto, using(crate::proofs::Walking::step_bounds))]
    pub fn step(&mut self, q: &[u8]) -> Option<Result<Node, NodeFault>>
        requires { self.old.pending < 2 ^ 32 }
        ensures { WalkStep q.now self.old self.new result }
    {
        if self.pending == 0 {
            return None;
        }
        let read = node_at(q, self.at);
        self.pending -= 1;
        self.at += own_bytes(read);
        self.pending += children(read);
        Some(read)
    }
}

// Past the nodes of so many trees, none of them judged, and past at most 64 nodes.
#[tactic(auto, using(crate::proofs::Walking::skip_steps), unfolding(crate::specs::Inside::Skip::skip_at))]
pub fn skip(q: &[u8], start: usize, trees: u8) -> Skipped
    ensures { result ≡ skip_at q.now start trees }
{
    let mut walk = Walk {
        at: start,
        pending: trees as usize,
    };
    for nodes in 0..MOST_NODES {
        if walk.step(q).is_none() {
            return Skipped { at: walk.at, nodes };
        }
    }
    Skipped {
        at: walk.at,
        nodes: MOST_NODES,
    }
}
