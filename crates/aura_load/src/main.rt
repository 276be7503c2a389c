// The test load as a program: a start number and a node count, two decimal arguments, in; the question's bytes, and nothing else, out on standard output. Where
// there is no question it writes nothing there, and one line on standard error.
#![tactic(auto)]

ghost use Rattle.std.specs.Prelude.{◌≤◌, length, ◌≡◌, IfSome};
ghost use Rattle.aura_load.specs.Argument.{more_digits, number_in, too_large};
ghost use Rattle.load.specs.Load.{load_of};
ghost use Rattle.written.specs.Output.{lent_after};

use load::write_load;
use std::env::{Env, FillError};
use std::io;

// 2^32, which every larger number counts as: it is no start number, and no node count of a question. No None, since a node count that is too large is refused
// with 14, and what is no number by a line on how to call the program.
const TOO_LARGE: u64 = 4_294_967_296;

// The number of which n are the digits before b, a digit.
#[tactic(auto, unfolding(crate::specs::Argument::more_digits))]
fn more(n: u64, b: u8) -> u64
    requires { 48 ≤ b }
    ensures { result ≡ more_digits n b }
{
    n.saturating_mul(10)
        .saturating_add((b - b'0') as u64)
        .min(TOO_LARGE)
}

// The number that a text is in decimal. By hand: parse takes a sign too, and refuses a number that does not fit, where this counts it as 2^32.
#[tactic(auto, using(crate::proofs::Arguments::number_steps))]
fn number_in(text: &[u8]) -> Option<u64>
    ensures { result ≡ number_in text.now }
{
    if text.is_empty() {
        return None;
    }
    let mut n: u64 = 0;
    for &b in text {
        if !b.is_ascii_digit() {
            return None;
        }
        n = more(n, b);
    }
    Some(n)
}

// Argument i as a number; one of more than 32 bytes is none.
#[tactic(auto, using(crate::proofs::Arguments::number_most))]
fn argument(rt: &impl Env, i: usize) -> Option<u64>
    ensures { IfSome result (λ n. n ≤ too_large) }
{
    let mut text = [0u8; 32];
    let len = rt.arg(i, &mut text).ok()?;
    number_in(&text[..len])
}

// Writes the question, or says with which number it is refused; `out` is room for it.
#[tactic(auto, using(written::proofs::Outputs::len_fits))]
fn respond(rt: &(impl Print + Eprint), start: u32, nodes: usize, out: &mut [u8]) -> io::Result<()>
    ensures { out.new ≡ lent_after (length out.old) (load_of start nodes (length out.old)) }
{
    match write_load(start, nodes, out) {
        Ok(len) => rt.write_all(&out[..len]),
        Err(fault) => {
            let number = fault.number();
            eprintln!(rt; "aura_load: {number}: the node count is not 1 to 64")
        }
    }
}

// The longest question has 133 bytes, so that 14 is the only number of a refusal. An argument 3 is one too many.
fn main(rt: HostRuntime) -> io::Result<()> {
    let mut third = [0u8; 32];
    let two = matches!(rt.arg(3, &mut third), Err(FillError::NotPresent));
    match (argument(&rt, 1).map(u32::try_from), argument(&rt, 2)) {
        (Some(Ok(start)), Some(nodes)) if two => {
            let mut out = [0u8; 133];
            respond(&rt, start, nodes as usize, &mut out)
        }
        _ => eprintln!(rt;
            "usage: aura_load START NODES (two numbers in decimal, START at most 4294967295)"
        ),
    }
}
