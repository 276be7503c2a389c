// Why nothing is answered.
ghost use Rattle.std.specs.Prelude.{◌≡◌};
ghost use Rattle.judge.specs.RefusalNumber.{refusal_number};
ghost use Rattle.judge.specs.declared.refusal.Refusal.TheVariants.{Table, Question};

use question::QuestionFault;
use symbol::checks::TableFault;

// The table is refused, or the question, or the root's type has over 256 bytes, or the buffer is too short for the diagnostics.
#[derive(Clone, Copy, PartialEq, Eq)]
pub enum Refusal {
    Table(TableFault),
    Question(QuestionFault),
    TypeTooLong,
    ShortBuffer,
}

impl From<TableFault> for Refusal {
    ghost from_gives = { λ fault refusal. refusal ≡ Table fault };

    fn from(fault: TableFault) -> Refusal {
        Refusal::Table(fault)
    }
}

impl From<QuestionFault> for Refusal {
    ghost from_gives = { λ fault refusal. refusal ≡ Question fault };

    fn from(fault: QuestionFault) -> Refusal {
        Refusal::Question(fault)
    }
}

impl Refusal {
    // The number in an answer; a match, as `as u8` gives none for a variant that holds a fault with a number of its own.
    pub fn number(self) -> u8
        ensures { result ≡ refusal_number self }
    {
        match self {
            Refusal::Table(table) => table.number(),
            Refusal::Question(question) => question.number(),
            Refusal::TypeTooLong => 13,
            Refusal::ShortBuffer => 12,
        }
    }
}
