// How far a judgement is.
ghost use Rattle.std.specs.Prelude.{◌≡◌, ◌+◌, ◌≤◌, ◌<◌};
ghost use Rattle.nodes.specs.Inside.Progress.{inside_of, finished_as};
ghost use Rattle.nodes.specs.Inside.Row.{name_at};
ghost use Rattle.area.specs.Inside.Slot.{slot_count, type_at};

use area::is_error;
use area::types::{Slot, type_of};
use question::node::{Node, node_at};

// How far a judgement is: the next position in the question, the next node's number, and whether no finished node is Error.
#[derive(Clone, Copy)]
pub struct State {
    pub at: usize,
    pub node: usize,
    pub fine: bool,
}

// Where the children of a node with so many bytes of its own begin. slot_count is asked, as a node's number does not know how many slots there are.
pub fn inside(s: State, own: usize) -> State
    requires { (s.at + own ≤ 65536) × (s.node < slot_count) }
    ensures { result ≡ inside_of s own }
{
    State {
        at: s.at + own,
        node: s.node + 1,
        ..s
    }
}

// Behind a node that is finished: its type lies in its slot.
pub fn finished<const N: usize>(s: State, node: usize, slots: &[Slot<N>]) -> State
    ensures { result ≡ finished_as s (type_at slots.now node) }
{
    let error = is_error(type_of(slots, node));
    State {
        fine: s.fine & !error,
        ..s
    }
}

// The name that the node at a position gives to the argument that it is.
#[tactic(auto, using(crate::proofs::Naming::other_name, crate::proofs::Naming::fault_name), unfolding(crate::specs::Inside::Row::name_read))]
pub fn argument_name(q: &[u8], at: usize) -> Option<u16>
    ensures { result ≡ name_at q.now at }
{
    match node_at(q, at) {
        Ok(Node::Named { id }) => Some(id),
        _ => None,
    }
}
