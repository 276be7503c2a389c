// The answer once the root is judged: its mark and its type, or why there is none.
ghost use Rattle.std.specs.Prelude.{◌≤◌, ◌≡◌, length};
ghost use Rattle.typing.specs.Answer.{answer_bytes, zeros};
ghost use Rattle.judge.specs.Answered.{outcome_is};
ghost use Rattle.judge.specs.Inside.Root.{passes_at, root_refusal, RootIs};

use crate::{Judged, Refusal};
use nodes::progress::State;
use written::copy_in;

// The answer once the tree is judged: its root has the type `root`, and so many diagnostics were reported. Count and buffer are apart: a refusal clears the
// whole buffer, which no Reports with that count would hold.
pub fn answer_root(
    s: State,
    count: usize,
    root: &[u8],
    diagnostics: &mut [u8],
    ty: &mut [u8],
) -> Result<Judged, Refusal>
    requires { (count ≤ 4294967296) × (ty.old ≡ zeros answer_bytes) }
    ensures { RootIs s count root.now diagnostics.old diagnostics.new (outcome_is result ty.new) }
{
    let len = root.len();
    let refusal = root_refusal(len, count, diagnostics.len());
    match refusal {
        None => {
            copy_in(ty, 0, root);
            let pass = passes(s, count);
            Ok(Judged { len, count, pass })
        }
        Some(refusal) => {
            diagnostics.fill(0);
            Err(refusal)
        }
    }
}

// Why a whole judgement is refused, if it is: its root type has so many bytes, there are so many diagnostics, and so many bytes are lent.
// An Option: before a refusal the buffer is cleared, so that a Result would be opened as well.
#[tactic(auto, using(ty::proofs::Choice::chain), unfolding(crate::specs::Inside::Root::root_refusal))]
fn root_refusal(len: usize, count: usize, lent: usize) -> Option<Refusal>
    requires { count ≤ 4294967296 }
    ensures { result ≡ root_refusal len count lent }
{
    if 256 < len {
        return Some(Refusal::TypeTooLong);
    }
    if lent < 5 * count {
        return Some(Refusal::ShortBuffer);
    }
    None
}

// Nothing was reported, warnings included, and no visited node is Error.
#[tactic(auto, unfolding(crate::specs::Inside::Root::passes_at))]
fn passes(s: State, count: usize) -> bool
    ensures { result ≡ passes_at s count }
{
    (count == 0) & s.fine
}
