// A test load: questions for an empty table, drawn from a start number.
#![tactic(auto)]

ghost use Rattle.std.specs.Prelude.{◌≡◌, ◌+◌, ◌*◌, ◌<◌, ◌≤◌, [], ◌∷◌, length};
ghost use Rattle.std.proofs.lemmas.List.Edits.{sets};
ghost use Rattle.load.specs.Draw.{stepped, drawn};
ghost use Rattle.load.specs.Load.{load_of};
ghost use Rattle.load.specs.Order1.{LoadFine};
ghost use Rattle.load.specs.Inside.Shape.{shape_of, ShapeIs};
ghost use Rattle.load.specs.Inside.WritesTree.{WritesTree};
ghost use Rattle.question.specs.NodeKind.{node_kind_number};
ghost use Rattle.written.specs.Output.{Writes};

use question::node::MOST_NODES;
use question::{HEADER_BYTES, NodeKind};
use written::{WriteFault, copy_in, refuse};

// The kinds of a leaf's type that is one byte: Int to Unit.
const LEAF_KINDS: u32 = 12;

const BINARY_OPERATORS: u32 = 23;

const UNARY_OPERATORS: u32 = 7;

// The draws, by the state behind the last.
#[derive(Drop)]
struct Draws {
    state: u32,
}

impl Draws {
    // What a draw of n takes.
    #[tactic(auto, using(crate::proofs::TreeReturns::wrapped), unfolding(crate::specs::Draw::taken_from))]
    fn draw(&mut self, n: u32) -> u32
        requires { 1 ≤ n }
        ensures stepped { self.new.state ≡ stepped self.old.state }
        ensures taken { result ≡ drawn n self.old.state }
        ensures below { result < n }
    {
        self.state = self
            .state
            .wrapping_mul(1_664_525)
            .wrapping_add(1_013_904_223);
        self.state / 65_536 % n
    }

    // Whether a node with so many nodes in its tree, at least two, is a binary, else it is a unary.
    #[tactic(auto, using(crate::proofs::TreeReturns::shape_two))]
    fn draw_binary(&mut self, nodes: usize) -> bool
        ensures { ShapeIs result self.new.state (shape_of nodes self.old.state) }
    {
        2 < nodes && self.draw(2) == 1
    }
}

// The two bytes of one node: its kind, and its operator or type.
fn put_node(kind: NodeKind, what: u32, at: usize, out: &mut [u8])
    requires { (what < 256) × (at + 2 ≤ length out.old) }
    ensures { out.new ≡ sets out.old at (node_kind_number kind ∷ what ∷ []) }
{
    out[at] = kind.number();
    out[at + 1] = what as u8;
}

// Draws a tree of so many nodes and writes it from `at` on as it is drawn.
#[tactic(auto, using(crate::proofs::DrawnTrees::binary_many))]
fn write_tree(nodes: usize, draws: &mut Draws, at: usize, out: &mut [u8])
    requires { (1 ≤ nodes) × (nodes ≤ 64) × (at + 2 * nodes ≤ length out.old) }
    ensures { WritesTree nodes draws.old.state at out.old out.new draws.new.state }
{
    if nodes == 1 {
        return put_node(NodeKind::Leaf, draws.draw(LEAF_KINDS), at, out);
    }
    if draws.draw_binary(nodes) {
        put_node(NodeKind::Binary, draws.draw(BINARY_OPERATORS), at, out);
        let left = 1 + draws.draw((nodes - 2) as u32) as usize;
        let right = nodes - 1 - left;
        write_tree(left, draws, at + 2, out);
        return write_tree(right, draws, at + 2 + 2 * left, out);
    }
    put_node(NodeKind::Unary, draws.draw(UNARY_OPERATORS), at, out);
    write_tree(nodes - 1, draws, at + 2, out);
}

// Writes a question of so many nodes, drawn from the start number, with zeros behind it. Refuses a
// node count that is not 1 to 64, and then a buffer of fewer than 5 + 2 × nodes bytes, writing only
// zeros.
pub fn write_load(start: u32, nodes: usize, out: &mut [u8]) -> Result<usize, WriteFault>
    ensures writes { Writes (load_of start nodes (length out.old)) result out.old out.new }
    ensures load_fine { 1 ≤ nodes → nodes ≤ 64 → LoadFine start nodes }
{
    if (nodes == 0) | (MOST_NODES < nodes) {
        return refuse(out, WriteFault::BadCount);
    }
    let len = HEADER_BYTES + 2 * nodes;
    if out.len() < len {
        return refuse(out, WriteFault::TooShort);
    }
    out.fill(0);
    copy_in(out, 0, &[255, 255, 255, 255, 0]); // no type, no package, not in suspend
    let mut draws = Draws { state: start };
    write_tree(nodes, &mut draws, HEADER_BYTES, out);
    Ok(len)
}
