// What a rule answers.
ghost use Rattle.std.specs.Prelude.{◌≡◌};
ghost use Rattle.operators.specs.Inside.RuledParts.{report_unless, clean_one, plain_one, fails_one, checked_one, ruled_before, ruled_alone};

use area::Source;
use ty::Kind;

// A diagnostic at the node itself: the byte of its kind, where 0 is no report, and its number, 0 for none as in a record (docs/FORMAT.md).
#[derive(Clone, Copy)]
pub struct Diagnostic {
    pub kind: u8,
    pub number: u8,
}

// Where the node's type comes from, and what is reported, in order: two at most, as And and Or report on each operand and no rule on more. A list would
// have its length tested where two Options say which there are.
#[derive(Clone, Copy)]
pub struct Ruled {
    pub source: Source,
    pub first: Option<Diagnostic>,
    pub second: Option<Diagnostic>,
}

// The same where at most one diagnostic is reported, of the kind that a byte stands for, where 0 is no report; it has no number.
#[derive(Clone, Copy)]
pub struct OneReport {
    pub source: Source,
    pub kind: Option<u8>,
}

// A type, and nothing is reported.
#[tactic(auto, unfolding(crate::specs::Inside::RuledParts::clean_one))]
pub fn clean(source: Source) -> OneReport
    ensures { result ≡ clean_one source }
{
    OneReport { source, kind: None }
}

// The type of the kind without body that a byte stands for, and nothing is reported.
#[tactic(auto, unfolding(crate::specs::Inside::RuledParts::plain_one))]
pub fn plain(kind: u8) -> OneReport
    ensures { result ≡ plain_one kind }
{
    clean(Source::Kind(kind))
}

// Error, and a report; a kind of 0 is no report.
#[tactic(auto, unfolding(crate::specs::Inside::RuledParts::fails_one))]
pub fn fails(kind: u8) -> OneReport
    ensures { result ≡ fails_one kind }
{
    OneReport {
        source: Source::Kind(Kind::Error as u8),
        kind: Some(kind),
    }
}

// A type, and a report unless a test holds; a kind of 0 is no report.
#[tactic(auto, unfolding(crate::specs::Inside::RuledParts::checked_one, crate::specs::Inside::RuledParts::clean_one, ty::specs::Choose::choose))]
pub fn checked(ok: bool, source: Source, kind: u8) -> OneReport
    ensures { result ≡ checked_one ok source kind }
{
    OneReport {
        source,
        kind: (!ok).then_some(kind),
    }
}

// A report unless a test holds; a kind of 0 is no report.
#[tactic(auto, unfolding(crate::specs::Inside::RuledParts::report_unless, ty::specs::Choose::choose))]
pub fn unless(ok: bool, kind: u8, number: u8) -> Option<Diagnostic>
    ensures { result ≡ report_unless ok kind number }
{
    (!ok).then_some(Diagnostic { kind, number })
}

// An answer with a diagnostic that comes before its own, if there is one.
#[tactic(auto, unfolding(crate::specs::Inside::RuledParts::ruled_before))]
pub fn report_before(first: Option<Diagnostic>, rest: OneReport) -> Ruled
    ensures { result ≡ ruled_before first rest }
{
    Ruled {
        source: rest.source,
        first,
        second: rest.kind.map(|kind| Diagnostic { kind, number: 0 }),
    }
}

// An answer with its own diagnostic alone.
impl From<OneReport> for Ruled {
    ghost from_gives = { λ rest r. r ≡ ruled_alone rest };

    #[tactic(auto, unfolding(crate::specs::Inside::RuledParts::ruled_alone))]
    fn from(rest: OneReport) -> Ruled {
        report_before(None, rest)
    }
}
