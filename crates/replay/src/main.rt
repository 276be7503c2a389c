// Runs the stored answers through the judge. Standard input has, for each case, table, question and the text that the program prints, each behind its length in
// 2 bytes, low byte first. Prints how many cases agree; at the first that does not it stops and says which that is, counted from 0.
#![tactic(auto)]

ghost use Rattle.std.specs.Prelude.{length, take, ◌≡◌, IfSome, OnOk};
ghost use Rattle.std.specs.Io.KnownBytes.{Appends};
ghost use Rattle.console.specs.Buffer.{holding};
ghost use Rattle.judge_text.specs.ProgramText.{answer_text};
ghost use Rattle.replay.specs.Agreement.{agreement, Agreement};
ghost use Rattle.replay.specs.CaseTaken.{CaseOf, WholeText};
ghost use Rattle.replay.specs.Told.{told};
ghost use Rattle.replay.specs.Inside.CaseRead.{LengthRead, PartFrom, ReadTo, CaseRead};
ghost use Rattle.typing.specs.Answer.{buffer_of};

use judge_text::{LONGEST_TEXT, PROGRAM_BUFFER, answer_text};
use std::io::{self, Lock, Read, Write};
use ty::same_bytes;

// What reading a case comes to: four outcomes, which no Option or Result of a bool names.
#[derive(Clone, Copy, PartialEq, Eq)]
enum Case {
    // The input ends before a case.
    End,
    Agrees,
    Differs,
    // The input ends within a case, or a part of it has no room.
    Broken,
}

// The judge's text is the expected one. The lent slices are apart, here and below, as in `judge_text`.
#[tactic(auto, using(crate::proofs::Agreeing::agreeing))]
fn agrees(
    table: &[u8],
    question: &[u8],
    expected: &[u8],
    diagnostics: &mut [u8],
    out: &mut [u8],
) -> bool
    ensures answer { result ≡ agreement table.now question.now expected.now
        (length diagnostics.old) (length out.old) }
    ensures whole { Agreement table.now question.now expected.now diagnostics.old out.old result }
    ensures text { out.new
        ≡ holding (length out.old) (answer_text table.now question.now (length diagnostics.old)) }
    ensures buffer { diagnostics.new ≡ buffer_of table.now question.now (length diagnostics.old) }
{
    let n = answer_text(table, question, diagnostics, out);
    same_bytes(&out[..n], expected)
}

// Reads a length; none where the input ends or a read fails.
fn read_length<R: Read>(input: &mut R) -> Option<u16>
    ensures { IfSome result (LengthRead (R.remaining input.old) (R.remaining input.new)) }
{
    let mut head = [0u8; 2];
    input.read_exact(&mut head).ok()?;
    Some(u16::from_le_bytes(head))
}

// Reads a length and as many bytes to the front of `space`; none where they are not all there or
// do not fit.
fn read_part<R: Read>(input: &mut R, space: &mut [u8]) -> Option<usize>
    ensures room { IfSome result (λ n. ReadTo space n) }
    ensures bytes { IfSome result (λ n. PartFrom (R.remaining input.old) (R.remaining input.new) n (take n space.new)) }
{
    let len = read_length(input)? as usize;
    if space.len() < len {
        return None;
    }
    input.read_exact(&mut space[..len]).ok()?;
    Some(len)
}

// Reads a case and judges it; the slices are room for it.
#[tactic(auto, using(ty::proofs::Choice::chosen, ty::proofs::Choice::passed))]
fn read_case<R: Read>(
    input: &mut R,
    table: &mut [u8],
    question: &mut [u8],
    expected: &mut [u8],
    diagnostics: &mut [u8],
    out: &mut [u8],
) -> Case
    ensures left { CaseRead table question expected diagnostics out result }
    ensures taken { CaseOf (R.remaining input.old) (R.remaining input.new)
        (λ t q e so. Agreement t q e diagnostics.old out.old so) result }
{
    let Some(t) = read_part(input, table) else {
        return Case::End;
    };
    let Some(q) = read_part(input, question) else {
        return Case::Broken;
    };
    let Some(e) = read_part(input, expected) else {
        return Case::Broken;
    };
    if agrees(
        &table[..t],
        &question[..q],
        &expected[..e],
        diagnostics,
        out,
    ) {
        return Case::Agrees;
    }
    Case::Differs
}

// Writes what the run was, after so many cases that agree.
#[tactic(auto, unfolding(crate::specs::Told::told))]
fn tell<W: Write>(output: &mut W, agree: u64, last: Case) -> io::Result<()>
    ensures { OnOk result (Appends (W.contents output.old) (W.contents output.new) (told agree last)) }
{
    match last {
        Case::Differs => writeln!(output, "{agree} cases agree, not case {agree}"),
        Case::Broken => writeln!(output, "{agree} cases agree, then the input breaks off"),
        Case::End | Case::Agrees => writeln!(output, "{agree} cases agree"),
    }
}

// `read_case` in slices of its own: a length of two bytes is at most 65,535.
fn next<R: Read>(input: &mut R) -> Case
    ensures { CaseOf (R.remaining input.old) (R.remaining input.new) WholeText result }
{
    let mut table = [0u8; 65535];
    let mut question = [0u8; 65535];
    let mut expected = [0u8; 65535];
    let mut diagnostics = [0u8; PROGRAM_BUFFER];
    let mut out = [0u8; LONGEST_TEXT];
    read_case(
        input,
        &mut table,
        &mut question,
        &mut expected,
        &mut diagnostics,
        &mut out,
    )
}

// A loop has to end, and nothing says that the input does: the count ends it.
fn main(rt: HostRuntime) -> io::Result<()> {
    let mut input = rt.reader();
    for agree in 0..u64::MAX {
        let case = next(&mut input);
        if case != Case::Agrees {
            return tell(&mut rt.stdout().lock(), agree, case);
        }
    }
    tell(&mut rt.stdout().lock(), u64::MAX, Case::End)
}
