// The judge's answer as text, from a table and a question or from the program's input.
#![tactic(auto)]

ghost use Rattle.std.specs.Prelude.{◌≡◌, length};
ghost use Rattle.console.specs.Buffer.{Filled};
ghost use Rattle.typing.specs.Answer.{buffer_of};
ghost use Rattle.judge_text.specs.ProgramText.{answer_text, input_text, input_buffer, Short};

use console::{parts, print_answer};
use judge::judge;

// The first bytes of an input that its answer goes by: two of length, a table of 65,535 bytes and a question of 16,385, which is too long.
pub const LONGEST_INPUT: usize = 81922;

// How many bytes the program lends for diagnostics.
pub const PROGRAM_BUFFER: usize = 65535;

// No text has more bytes than that, where no more is lent for diagnostics.
pub const LONGEST_TEXT: usize = 210259;

// Judges a question under a table and puts the answer's text at the front of `out`, as much of it as fits, and zeros behind it; answers how many bytes of
// `out` it takes. The lent slices are apart, here and in the programs: the clauses say of each what is in it behind.
pub fn answer_text(table: &[u8], question: &[u8], diagnostics: &mut [u8], out: &mut [u8]) -> usize
    ensures text { Filled out.old out.new result
        (answer_text table.now question.now (length diagnostics.old)) }
    ensures short { Short (answer_text table.now question.now) (length diagnostics.old) }
    ensures buffer { diagnostics.new ≡ buffer_of table.now question.now (length diagnostics.old) }
{
    let a = judge(table, question, diagnostics);
    let ty = a.ty;
    let n = a.len;
    print_answer(a.number, a.pass, &ty[..n], a.count, diagnostics, out)
}

// The same for the table and the question of an input.
pub fn input_text(input: &[u8], diagnostics: &mut [u8], out: &mut [u8]) -> usize
    ensures text { Filled out.old out.new result (input_text input.now (length diagnostics.old)) }
    ensures short { Short (input_text input.now) (length diagnostics.old) }
    ensures buffer { diagnostics.new ≡ input_buffer input.now (length diagnostics.old) }
{
    let (table, question) = parts(input);
    answer_text(table, question, diagnostics, out)
}
