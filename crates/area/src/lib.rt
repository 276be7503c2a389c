// Where types and diagnostics are kept while a question is judged: a slot for each node, and a lent buffer.
#![tactic(auto)]

ghost use Rattle.std.specs.Prelude.{◌≡◌};
ghost use Rattle.ty.specs.Kind.{error_kind};
ghost use Rattle.ty.specs.Bytes.{plain_ty, same_bytes};
ghost use Rattle.area.specs.DiagnosticKind.{diagnostic_number};
ghost use Rattle.area.specs.Source.{bytes_from};

pub mod reports;
pub mod types;

use ty::{Kind, Part};

// The kinds of diagnostics, in the order of their numbers.
#[derive(Clone, Copy, PartialEq, Eq)]
pub enum DiagnosticKind {
    NullableOperands = 1,
    Plus,
    Numeric,
    Unrelated,
    NotComparable,
    Logical,
    Bitwise,
    NullableUnary,
    Minus,
    Not,
    Step,
    Dereference,
    NotNull,
    Suspend,
    ArgumentCount,
    UnknownName,
    Mismatch,
    NoMatch,
    Tie,
    Access,
    NullableMember,
    Unresolved,
    NoMembers,
}

impl DiagnosticKind {
    // The byte that stands for a kind.
    pub fn number(self) -> u8
        ensures { result ≡ diagnostic_number self }
    {
        self as u8
    }
}

// Where a node's type comes from: a kind without body, a List of one, a name, a child's type, what the first child's type holds, a Pointer to it, a
// part of the table, or a Function without parameters whose result is such a part. Nine ways, which no Option holds.
#[derive(Clone, Copy)]
pub enum Source {
    Kind(u8),
    ListOf(u8),
    Name(u16),
    First,
    Second,
    Inner,
    Pointer,
    Part(Part),
    Function(Part),
}

// The bytes of a part, or as many of them as there are.
pub fn part(s: &[u8], part: Part) -> &[u8]
    ensures { result.now ≡ bytes_from s.now part.start part.len }
{
    let rest = ty::tail(s, part.start);
    &rest[..part.len.min(rest.len())]
}

// Whether a type is Error itself.
pub fn is_error(s: &[u8]) -> bool
    ensures { result ≡ same_bytes s.now (plain_ty error_kind) }
{
    ty::same_bytes(s, &[Kind::Error as u8])
}
