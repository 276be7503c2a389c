// What every writing part shares: its answer, what it does to the buffer that it is lent, and the stores of several bytes.
#![tactic(auto)]

ghost use Rattle.std.specs.Prelude.{◌≡◌, ◌+◌, ◌≤◌, length};
ghost use Rattle.std.proofs.lemmas.List.Edits.{sets};
ghost use Rattle.ty.specs.Bytes.{two_bytes};
ghost use Rattle.written.specs.Output.{refused, write_fault_number, Writes};

// Why a writing part refuses; otherwise it answers how many bytes it wrote.
#[derive(Clone, Copy, PartialEq, Eq)]
pub enum WriteFault {
    // The node count is not 1 to 64.
    BadCount = 14,
    // The buffer is too short for the output.
    TooShort,
}

impl WriteFault {
    // The number with which a refusal is answered.
    pub fn number(self) -> u8
        ensures { result ≡ write_fault_number self }
    {
        self as u8
    }
}

// The bytes of s go to a place of some bytes. By a loop: copy_from_slice would call memmove, a name that the archive for C then needs from outside.
pub fn copy_in(out: &mut [u8], to: usize, s: &[u8])
    requires { to + length s.now ≤ length out.old }
    ensures { out.new ≡ sets out.old to s.now }
{
    for i in 0..s.len() {
        out[to + i] = s[i];
    }
}

// The low two bytes of n go to `at` and behind it, low byte first.
pub fn put_two(n: usize, out: &mut [u8], at: usize)
    requires { at + 2 ≤ length out.old }
    ensures { out.new ≡ sets out.old at (two_bytes n) }
{
    copy_in(out, at, &n.to_le_bytes()[..2]);
}

// Refuses with a fault of any type, a byte too: nothing is written.
#[tactic(auto, unfolding(crate::specs::Output::written_of, crate::specs::Output::lent_after))]
pub fn refuse<F>(out: &mut [u8], fault: F) -> Result<usize, F>
    ensures { Writes (refused fault) result out.old out.new }
{
    out.fill(0);
    Err(fault)
}
