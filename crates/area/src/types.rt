// The types of a question's nodes, each in a slot: of 256 bytes in the judge, and of every size here.
//
// `node < length slots`, `Child` and `.. ≤ N` are asked and in no type: a node's number does not know the slots, bytes do not know their bound, and a
// struct of number and slots would borrow the slots.
ghost use Rattle.std.specs.Prelude.{◌≡◌, ◌++◌, ◌+◌, ◌≤◌, ◌<◌, [], length, set};
ghost use Rattle.area.specs.Inside.Slot.{type_at, Child};
ghost use Rattle.area.specs.Inside.Storable.{CanStore, typed_by};
ghost use Rattle.area.specs.Source.{bytes_from};
ghost use Rattle.ty.specs.Bytes.{inner_of};

use crate::Source;
use std::marker::Model;
use ty::{Kind, Part};
use written::copy_in;

// A node's type, of at most N bytes; no bytes at first.
// No ArrayVec<u8, 256>: its value is a record around the bytes, where a slot's is the type itself, so that a slice of slots is a list of types in each clause.
#[derive(Drop)]
pub struct Slot<const N: usize> {
    bytes: [u8; N],
    len: usize,
}

impl<const N: usize> Model for Slot<N> {
    ghost use Rattle.std.specs.Prelude.{ℕ, List, take, ◌≤◌};

    ghost Value = { List ℕ };

    ghost view = { λ s. take s.len s.bytes };

    ghost invariant = { λ s. s.len ≤ N };
}

impl<const N: usize> Slot<N> {
    // A slot that holds nothing.
    pub const fn new() -> Slot<N>
        ensures { result ≡ [] }
    {
        Slot {
            bytes: [0; N],
            len: 0,
        }
    }

    // The type that it holds.
    pub fn bytes(&self) -> &[u8]
        ensures is { result.now ≡ self.now }
        ensures small { length self.now ≤ N }
    {
        &self.bytes[..self.len]
    }

    // The bytes of `front`, and then those of `rest`, are what it holds.
    #[tactic(auto, using(crate::proofs::SlotsHeld::put_both))]
    pub fn put(&mut self, front: &[u8], rest: &[u8])
        requires { length front.now + length rest.now ≤ N }
        ensures { self.new ≡ front.now ++ rest.now }
    {
        copy_in(&mut self.bytes, 0, front);
        copy_in(&mut self.bytes, front.len(), rest);
        self.len = front.len() + rest.len();
    }
}

// The type of node m, and no bytes where it has no slot.
pub fn type_of<const N: usize>(slots: &[Slot<N>], m: usize) -> &[u8]
    ensures { result.now ≡ type_at slots.now m }
{
    match slots.get(m) {
        Some(s) => s.bytes(),
        None => &[],
    }
}

// The bytes of `front`, and then those of `rest`, become the type of node.
fn store_bytes<const N: usize>(slots: &mut [Slot<N>], node: usize, front: &[u8], rest: &[u8])
    requires { (node < length slots.old) × (length front.now + length rest.now ≤ N) }
    ensures { slots.new ≡ set slots.old node (front.now ++ rest.now) }
{
    slots[node].put(front, rest);
}

// The bytes of `front`, and then the type of the child m, become the type of node. Apart from store_inner: a closure from a type to its part would say less
// plainly which part.
#[tactic(auto, using(crate::proofs::SlotsHeld::set_before))]
fn store_child<const N: usize>(slots: &mut [Slot<N>], node: usize, front: &[u8], m: usize)
    requires { Child slots.old node m × (length front.now + length (type_at slots.old m) ≤ N) }
    ensures { slots.new ≡ set slots.old node (front.now ++ type_at slots.old m) }
{
    let (before, behind) = slots.split_at_mut(m);
    before[node].put(front, behind[0].bytes());
}

// What the type of the child m holds becomes the type of node.
#[tactic(auto, using(crate::proofs::SlotsHeld::set_before))]
fn store_inner<const N: usize>(slots: &mut [Slot<N>], node: usize, m: usize)
    requires { Child slots.old node m × (length (inner_of (type_at slots.old m)) ≤ N) }
    ensures { slots.new ≡ set slots.old node (inner_of (type_at slots.old m)) }
{
    let (before, behind) = slots.split_at_mut(m);
    before[node].put(&[], ty::inner(behind[0].bytes()));
}

// A part of some bytes, the table's or the question's, becomes the type of node.
pub fn store_part<const N: usize>(slots: &mut [Slot<N>], source: &[u8], node: usize, part: Part)
    requires { (node < length slots.old) × (length (bytes_from source.now part.start part.len) ≤ N) }
    ensures { slots.new ≡ set slots.old node (bytes_from source.now part.start part.len) }
{
    store_bytes(slots, node, &[], crate::part(source, part));
}

// The type that a source stands for becomes the type of node; first and second are its children, or the node itself where the source reads none: an Option
// would have to be opened at each source that reads one. A struct of some of the six parameters would be made at each call and taken apart here.
#[tactic(auto, unfolding(crate::specs::Source::type_from, crate::specs::Inside::Storable::ReadsChildren))]
pub fn store<const N: usize>(
    slots: &mut [Slot<N>],
    table: &[u8],
    node: usize,
    first: usize,
    second: usize,
    source: Source,
)
    requires { CanStore N table.now slots.old node first second source }
    ensures { slots.new ≡ set slots.old node (typed_by table.now slots.old first second source) }
{
    match source {
        Source::Kind(k) => store_bytes(slots, node, &[k], &[]),
        Source::ListOf(k) => store_bytes(slots, node, &[Kind::List as u8, k], &[]),
        Source::Name(id) => store_bytes(slots, node, &[Kind::Named as u8], &id.to_le_bytes()),
        Source::First => store_child(slots, node, &[], first),
        Source::Second => store_child(slots, node, &[], second),
        Source::Inner => store_inner(slots, node, first),
        Source::Pointer => store_child(slots, node, &[Kind::Pointer as u8], first),
        Source::Part(part) => store_part(slots, table, node, part),
        Source::Function(part) => {
            let t = crate::part(table, part);
            store_bytes(slots, node, &[Kind::Function as u8, 0], t)
        }
    }
}
