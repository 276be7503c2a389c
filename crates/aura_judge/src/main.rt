// The judge as a program: reads a table length, a table and a question from standard input, and prints the answer.
#![tactic(auto)]

ghost use Rattle.std.specs.Prelude.{◌≡◌, length, take, OnOk};
ghost use Rattle.std.specs.Io.KnownBytes.{Appends};
ghost use Rattle.console.specs.Buffer.{holding};
ghost use Rattle.judge_text.specs.ProgramText.{input_text, input_buffer, Short};
ghost use Rattle.aura_judge.specs.Run.{Answers};

use console::read_full;
use judge_text::{LONGEST_INPUT, LONGEST_TEXT, PROGRAM_BUFFER, input_text};
use std::io::{self, Lock, Read, Write};

// Writes the answer to an input; its text stays in `out`. The lent slices are apart, as in `judge_text`.
fn respond<W: Write>(
    output: &mut W,
    input: &[u8],
    diagnostics: &mut [u8],
    out: &mut [u8],
) -> io::Result<()>
    ensures text { out.new ≡ holding (length out.old) (input_text input.now (length diagnostics.old)) }
    ensures buffer { diagnostics.new ≡ input_buffer input.now (length diagnostics.old) }
    ensures written { OnOk result (Appends (W.contents output.old) (W.contents output.new)
        (take (length out.old) (input_text input.now (length diagnostics.old)))) }
    ensures short { Short (input_text input.now) (length diagnostics.old) }
{
    let n = input_text(input, diagnostics, out);
    output.write_all(&out[..n])
}

// Reads an input and writes the answer to it. Of a longer input the first 81,922 bytes have the same answer, and no text is longer than `out`: laws of
// `judge_text` say so.
fn run<R: Read, W: Write>(source: &mut R, output: &mut W) -> io::Result<()>
    ensures written { OnOk result (Answers (R.remaining source.old) (W.contents output.old) (W.contents output.new)) }
{
    let mut input = [0u8; LONGEST_INPUT];
    let mut diagnostics = [0u8; PROGRAM_BUFFER];
    let mut out = [0u8; LONGEST_TEXT];
    let n = read_full(source, &mut input)?;
    respond(output, &input[..n], &mut diagnostics, &mut out)
}

fn main(rt: HostRuntime) -> io::Result<()> {
    run(&mut rt.reader(), &mut rt.stdout().lock())
}
