// Types as bytes: a kind byte, a body whose length the kind fixes, and the child types (sema/ty.rs).
#![tactic(auto)]

pub mod name;
pub mod read;

ghost use Rattle.std.specs.Prelude.{◌≡◌, drop, get_or};
ghost use Rattle.ty.specs.Bytes.{kind_of, id_at, name_of, is_numeric, is_integer, is_boolean, is_nullable, is_string, is_array, is_array_kind};
ghost use Rattle.ty.specs.Bytes.{size_width, non_null, inner_of, same_bytes};
ghost use Rattle.ty.specs.KindNumber.{kind_number, is_of_kind};

pub use name::{NameId, id_number, known_id};
pub use read::{TypeFault, TypeRead};

// The kinds of a type, in the order of their numbers (enum `Ty`); an Array whose size has eight bytes stands behind them.
#[derive(Clone, Copy, PartialEq, Eq)]
pub enum Kind {
    Int,
    Long,
    Short,
    Byte,
    Float,
    Double,
    Boolean,
    Char,
    String,
    Any,
    Nothing,
    Unit,
    Nullable,
    Pointer,
    Array,
    List,
    Map,
    Named,
    Function,
    TypeVar,
    Module,
    Error,
    LargeArray,
}

// A number that stands for none of an enum's values.
#[derive(Clone, Copy, PartialEq, Eq)]
pub struct UnknownNumber(pub u8);

// Where a type lies in some bytes, a table's or a question's.
#[derive(Clone, Copy, PartialEq, Eq, Default)]
pub struct Part {
    pub start: usize,
    pub len: usize,
}

impl Kind {
    // The byte that stands for a kind.
    pub fn number(self) -> u8
        ensures { result ≡ kind_number self }
    {
        self as u8
    }
}

// The byte at i, and 0 past the end.
pub fn byte_at(s: &[u8], i: usize) -> u8
    ensures { result ≡ get_or s.now i 0 }
{
    s.get(i).copied().unwrap_or(0)
}

// The bytes from n on, and none where there are fewer.
pub fn tail(s: &[u8], n: usize) -> &[u8]
    ensures { result.now ≡ drop n s.now }
{
    s.get(n..).unwrap_or(&[])
}

// The two-byte number at i, low byte first, with 0 for each byte past the end. `tail(s, 1)` at i: i + 1 might not fit.
pub fn id_at(s: &[u8], i: usize) -> u16
    ensures { result ≡ id_at s.now i }
{
    u16::from_le_bytes([byte_at(s, i), byte_at(tail(s, 1), i)])
}

// The kind of a type, and 255, which no type has, where there is no byte: each test of a kind is false there, and no test opens an Option.
pub fn kind_of(s: &[u8]) -> u8
    ensures { result ≡ kind_of s.now }
{
    s.first().copied().unwrap_or(255)
}

// Whether a type is of a kind.
pub fn is_kind(s: &[u8], kind: Kind) -> bool
    ensures { result ≡ is_of_kind s.now kind }
{
    kind_of(s) == kind.number()
}

// The name id of a Named or a Module.
pub fn name_of(s: &[u8]) -> u16
    ensures { result ≡ name_of s.now }
{
    id_at(s, 1)
}

// These tests keep the names that they have in Rust, a line each.
pub fn is_nullable(s: &[u8]) -> bool
    ensures { result ≡ is_nullable s.now }
{
    is_kind(s, Kind::Nullable) | is_kind(s, Kind::Any)
}

pub fn is_numeric(s: &[u8]) -> bool
    ensures { result ≡ is_numeric s.now }
{
    kind_of(s) <= Kind::Double.number()
}

pub fn is_integer(s: &[u8]) -> bool
    ensures { result ≡ is_integer s.now }
{
    kind_of(s) <= Kind::Byte.number()
}

pub fn is_boolean(s: &[u8]) -> bool
    ensures { result ≡ is_boolean s.now }
{
    is_kind(s, Kind::Boolean)
}

// The two kinds of an Array, by a kind that was read.
pub fn is_array_kind(k: u8) -> bool
    ensures { result ≡ is_array_kind k }
{
    (k == Kind::Array as u8) | (k == Kind::LargeArray as u8)
}

pub fn is_array(s: &[u8]) -> bool
    ensures { result ≡ is_array s.now }
{
    is_array_kind(kind_of(s))
}

// How many bytes an Array's size has.
#[tactic(auto, unfolding(crate::specs::Bytes::size_width, crate::specs::Choose::choose))]
fn size_width(k: u8) -> usize
    ensures { result ≡ size_width k }
{
    if k == Kind::LargeArray as u8 {
        return 8;
    }
    4
}

// What a Nullable, a Pointer, a List or an Array holds.
#[tactic(auto, unfolding(crate::specs::Bytes::inner_of, crate::specs::Bytes::size_width, crate::specs::Choose::choose))]
pub fn inner(s: &[u8]) -> &[u8]
    ensures { result.now ≡ inner_of s.now }
{
    let k = kind_of(s);
    if is_array_kind(k) {
        return tail(s, 2 + size_width(k));
    }
    tail(s, 1)
}

pub fn is_string(s: &[u8]) -> bool
    ensures { result ≡ is_string s.now }
{
    is_kind(s, Kind::String) | (is_kind(s, Kind::Nullable) & is_kind(inner(s), Kind::String))
}

// A type with one Nullable taken off.
#[tactic(auto, unfolding(crate::specs::Bytes::non_null, crate::specs::Choose::choose))]
pub fn non_null(s: &[u8]) -> &[u8]
    ensures { result.now ≡ non_null s.now }
{
    if is_kind(s, Kind::Nullable) {
        return inner(s);
    }
    s
}

// Equal types are equal bytes.
#[tactic(auto, using(crate::proofs::Same::pointwise_same))]
pub fn same_bytes(a: &[u8], b: &[u8]) -> bool
    ensures { result ≡ same_bytes a.now b.now }
{
    a == b
}
