// Prints the numbers of generated questions, a line each. Standard input has, for each question, the number of the table's names and the question's length, 2
// bytes each, and the question. The files `stdin` and `stdout` beside are made by oracle/src/bin/questions.rs.
#![tactic(auto)]

ghost use Rattle.std.specs.Prelude.{◌≡◌, false, IfOk};
ghost use Rattle.std.specs.Io.KnownBytes.{IsAtEnd};

use console::read_full;
use question::Names;
use std::io::{self, Read};

// Reads one question and prints its number, or answers false where the input ends. `symbol_replay`
// has the like: a common part would take the head's length and a closure, and be longer than both.
fn next<R: Read>(rt: &impl Print, input: &mut R) -> io::Result<bool>
    ensures { IfOk result (λ more. more ≡ false → IsAtEnd (R.remaining input.new)) }
{
    let mut head = [0u8; 4];
    if read_full(input, &mut head)? < 4 {
        return Ok(false);
    }
    let count = u16::from_le_bytes([head[0], head[1]]);
    let len = u16::from_le_bytes([head[2], head[3]]) as usize;
    let mut space = [0u8; 65535]; // the most that two bytes of length say
    let n = read_full(input, &mut space[..len])?;
    let number = match question::check_question(&space[..n], Names { count }) {
        Ok(()) => 0,
        Err(fault) => fault.number(),
    };
    println!(rt; "{number}")?;
    Ok(true)
}

// A loop has to end, and nothing says that the input does: so it counts its turns. `symbol_replay`
// has the same: a common part would take a closure for `next`, and be longer than both.
fn main(rt: HostRuntime) -> io::Result<()> {
    let mut input = rt.reader();
    for _ in 0..u64::MAX {
        if !next(&rt, &mut input)? {
            break;
        }
    }
    Ok(())
}
