// The judge: one expression typed against one symbol table, both in bytes.
#![tactic(auto)]

mod refusal;
mod room;
mod root;

ghost use Rattle.std.specs.Prelude.{◌≡◌, []};
ghost use Rattle.typing.specs.Answer.{answer_bytes, zeros};
ghost use Rattle.typing.specs.Demand1.{Demand1};
ghost use Rattle.judge.specs.Answered.{answer_is, outcome_is, front_with, Answered, AnsweredInto, AcceptedDemand3, OfCall};

pub use refusal::Refusal;
use room::judge_sized;

// The answer: refusal number (0 for none), pass mark, the type in 256 bytes with zeros behind its length, that length, and how many diagnostics there are.
// Numbers, and bytes with their length beside: these are the fields that docs/FORMAT.md has under "Fields of an answer".
#[derive(Clone, Copy)]
pub struct Answer {
    pub number: u8,
    pub pass: u8,
    pub ty: [u8; 256],
    pub len: usize,
    pub count: usize,
}

// An answer that is no refusal, without its type, whose 256 bytes are lent: the type's length, how many diagnostics there are, and whether it passes.
#[derive(Clone, Copy)]
pub struct Judged {
    pub len: usize,
    pub count: usize,
    pub pass: bool,
}

// Judges a question against a table: the answer, and the diagnostics in the lent buffer.
pub fn judge(table: &[u8], question: &[u8], diagnostics: &mut [u8]) -> Answer
    ensures answered { OfCall Answered table.now question.now diagnostics (answer_is result) }
    ensures demand1 { OfCall Demand1 table.now question.now diagnostics (answer_is result) }
    ensures demand3 { OfCall AcceptedDemand3 table.now question.now diagnostics (answer_is result) }
{
    let mut ty = [0u8; 256];
    let outcome = judge_into(table, question, diagnostics, &mut ty);
    with_type(outcome, ty)
}

// What an answer has beside its type, in the numbers of its fields. These stand once more in Answer, which holds no Front: aura_c lends the type's bytes, and
// docs/FORMAT.md has the fields of an answer side by side.
#[derive(Clone, Copy)]
pub struct Front {
    pub number: u8,
    pub pass: u8,
    pub len: usize,
    pub count: usize,
}

// The front of an outcome: all but the number is 0 where the judge refuses.
pub fn front_of(outcome: Result<Judged, Refusal>) -> Front
    ensures { front_with result [] ≡ outcome_is outcome [] }
{
    match outcome {
        Ok(judged) => Front {
            number: 0,
            pass: u8::from(judged.pass),
            len: judged.len,
            count: judged.count,
        },
        Err(refusal) => Front {
            number: refusal.number(),
            pass: 0,
            len: 0,
            count: 0,
        },
    }
}

// An outcome with the 256 bytes of its type.
#[tactic(auto, using(crate::proofs::Fronts::front_typed))]
fn with_type(outcome: Result<Judged, Refusal>, ty: [u8; 256]) -> Answer
    ensures { answer_is result ≡ outcome_is outcome ty }
{
    let a = front_of(outcome);
    Answer {
        number: a.number,
        pass: a.pass,
        ty,
        len: a.len,
        count: a.count,
    }
}

// Judges a question against a table: what is answered or why nothing is, the type in what is lent for it, and the diagnostics in the lent buffer.
// Four slices, and no struct of them: the clause says of each lent one what is in it before and behind.
pub fn judge_into(
    table: &[u8],
    question: &[u8],
    diagnostics: &mut [u8],
    ty: &mut [u8],
) -> Result<Judged, Refusal>
    requires { ty.old ≡ zeros answer_bytes }
    ensures { AnsweredInto table.now question.now diagnostics ty result }
{
    diagnostics.fill(0);
    judge_sized(table, question, diagnostics, ty)
}
