// What the programs do with bytes besides judging: reading them, the input in two parts, and an answer as text.
#![tactic(auto)]

pub mod print;

ghost use Rattle.std.specs.Prelude.{◌≡◌, ◌≤◌, ◌<◌, length, take, IfOk};
ghost use Rattle.std.specs.Io.KnownBytes.{Consumes, IsAtEnd};
ghost use Rattle.console.specs.Input.{table_of, question_of};

pub use print::print_answer;
use std::io::{self, Read};
use ty::id_at;

// Reads until `buf` is full or the input ends; answers how many bytes it put at the front of `buf`.
pub fn read_full<R: Read>(input: &mut R, buf: &mut [u8]) -> io::Result<usize>
    ensures within { IfOk result (λ n. n ≤ length buf.new) }
    ensures bytes { IfOk result (λ n. Consumes (R.remaining input.old) (R.remaining input.new) (take n buf.new)) }
    ensures whole { IfOk result (λ n. n < length buf.new → IsAtEnd (R.remaining input.new)) }
{
    // no range to go over: each turn goes on by as many bytes as a read gave
    let mut at = 0;
    while at < buf.len() {
        let n = input.read(&mut buf[at..])?;
        if n == 0 {
            return Ok(at);
        }
        at += n;
    }
    Ok(at)
}

// The table's bytes and the question's.
pub fn parts(input: &[u8]) -> (&[u8], &[u8])
    ensures table { result.0.now ≡ table_of input.now }
    ensures question { result.1.now ≡ question_of input.now }
{
    let end = 2 + id_at(input, 0) as usize;
    match input.get(2..end) {
        Some(table) => (table, &input[end..]),
        None => (&[], &[]),
    }
}
