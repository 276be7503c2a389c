// The judge and the test load for C and Rust: a static library whose functions take numbers and byte slices. include/aura_judge.h declares them.
#![tactic(auto)]

ghost use Rattle.std.specs.Prelude.{◌≡◌, [], ◌≤◌, length};
ghost use Rattle.std.proofs.lemmas.List.Edits.{sets};
ghost use Rattle.judge.specs.Answered.{front_with};
ghost use Rattle.aura_c.specs.AnswerBytes.{bytes_of, answer_size, result_of, answer_slice, diagnostics_slice};
ghost use Rattle.aura_c.specs.LoadAccepted.{LoadAccepted};
ghost use Rattle.load.specs.Load.{load_of};
ghost use Rattle.written.specs.Output.{written_number, written_len, lent_after};

use judge::{Front, front_of, judge_into};
use load::write_load;
use written::put_two;

const ANSWER_SIZE: usize = 268;

// Where the type stands in an answer.
const TYPE_AT: usize = 12;

// No number of an answer (docs/DECISIONS.md, 26).
const TOO_SHORT: u8 = 255;

// What stands before an answer's type goes to the front of `out`, its numbers low byte first.
fn put_front(a: Front, out: &mut [u8])
    requires { answer_size ≤ length out.old }
    ensures { out.new ≡ sets out.old 0 (bytes_of (front_with a [])) }
{
    out[0] = a.number;
    out[1] = a.pass;
    // a length in two of its eight bytes: `&a.len.to_le_bytes()[..2]` to a range of `out` is no plainer
    put_two(a.len, out, 2);
    out[4..12].copy_from_slice(&a.count.to_le_bytes());
}

// How many bytes an answer has.
#[unsafe(no_mangle)]
pub extern "C" fn aura_judge_answer_size() -> usize
    ensures { result ≡ answer_size }
{
    ANSWER_SIZE
}

// Judges a question under a table. The diagnostics go into one lent slice and the answer into the other, with zeros behind both. Answers the answer's number,
// or 255 where the answer slice has fewer than 268 bytes; both slices are then zero.
#[unsafe(no_mangle)]
pub extern "C" fn aura_judge(
    table: &[u8],
    question: &[u8],
    diagnostics: &mut [u8],
    answer: &mut [u8],
) -> u8
    ensures value { result ≡ result_of table.now question.now (length diagnostics.old) (length answer.old) }
    ensures answer_after { answer.new
        ≡ answer_slice table.now question.now (length diagnostics.old) (length answer.old) }
    ensures diagnostics_after { diagnostics.new
        ≡ diagnostics_slice table.now question.now (length diagnostics.old) (length answer.old) }
{
    answer.fill(0);
    if answer.len() < ANSWER_SIZE {
        diagnostics.fill(0);
        return TOO_SHORT;
    }
    let outcome = judge_into(
        table,
        question,
        diagnostics,
        &mut answer[TYPE_AT..ANSWER_SIZE],
    );
    let a = front_of(outcome);
    put_front(a, answer);
    a.number
}

// Writes a question of so many nodes, drawn from the start number, into the lent slice, with zeros behind it, and its length into `len`. Answers 0, or 14 where
// the nodes are not 1 to 64, or 15 where the slice is too short; length and slice are then zero.
#[unsafe(no_mangle)]
pub extern "C" fn aura_load(start: u32, nodes: usize, out: &mut [u8], len: &mut usize) -> u8
    ensures value { result ≡ written_number (load_of start nodes (length out.old)) }
    ensures len_after { len.new ≡ written_len (load_of start nodes (length out.old)) }
    ensures out_after { out.new ≡ lent_after (length out.old) (load_of start nodes (length out.old)) }
    ensures load_accepted { LoadAccepted start nodes }
{
    match write_load(start, nodes, out) {
        Ok(n) => {
            *len = n;
            0
        }
        Err(fault) => {
            *len = 0;
            fault.number()
        }
    }
}
