// Prints the numbers of generated tables, a line each. Standard input has, for each table, its length in 2 bytes and the table. The files `stdin` and `stdout`
// beside are made by oracle/src/bin/tables.rs.
#![tactic(auto)]

ghost use Rattle.std.specs.Prelude.{◌≡◌, false, IfOk};
ghost use Rattle.std.specs.Io.KnownBytes.{IsAtEnd};

use console::read_full;
use std::io::{self, Read};

// Reads one table and prints its number, or answers false where the input ends. `question_replay` has the like: a common part would take the head's length
// and a closure, and be longer than both.
fn next<R: Read>(rt: &impl Print, input: &mut R) -> io::Result<bool>
    ensures { IfOk result (λ more. more ≡ false → IsAtEnd (R.remaining input.new)) }
{
    let mut head = [0u8; 2];
    if read_full(input, &mut head)? < 2 {
        return Ok(false);
    }
    let len = u16::from_le_bytes(head) as usize;
    let mut space = [0u8; 65535]; // the most that two bytes of length say
    let n = read_full(input, &mut space[..len])?;
    let mut index = [0u16; 42435]; // the longest index that check_table asks for
    let number = match symbol::checks::check_table(&space[..n], &mut index) {
        Ok(_) => 0,
        Err(fault) => fault.number(),
    };
    println!(rt; "{number}")?;
    Ok(true)
}

// A loop has to end, and nothing says that the input does: so it counts its turns. question_replay has the same loop: shared, it would be longer than both, as
// `next` would come as a closure over any reader.
fn main(rt: HostRuntime) -> io::Result<()> {
    let mut input = rt.reader();
    for _ in 0..u64::MAX {
        if !next(&rt, &mut input)? {
            break;
        }
    }
    Ok(())
}
