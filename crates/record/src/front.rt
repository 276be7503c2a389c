// Reading one record from the front of a slice.
ghost use Rattle.std.specs.Prelude.{◌≡◌, ◌≤◌, ◌<◌, length};
ghost use Rattle.record.specs.RecordKind.{record_kind_number, RecordKindIs};
ghost use Rattle.record.specs.Inside.Front.{front_at, plain_head, or_none, good_byte, good_part, name_head, head_by};
ghost use Rattle.record.specs.Inside.Walk.{HeadIs};

use crate::params::{Reading, read_function_head, typed_record};
use ty::read::LONGEST_TYPE;
use ty::{UnknownNumber, byte_at, id_at, known_id};

// The longest type in a record.
pub const LONGEST: u16 = LONGEST_TYPE;

// The bytes of a name's record: kind, length, 24 bytes.
pub const NAME_BYTES: usize = 26;

// Those of a class's: kind, name, superclass, two interfaces, package, flag.
pub const CLASS_BYTES: usize = 12;

// The kinds of a record.
#[derive(Clone, Copy, PartialEq, Eq)]
pub enum RecordKind {
    Name = 1,
    Class,
    Operators,
    Function,
    Field,
    Visibility,
    Suspend,
    Variant,
}

impl RecordKind {
    // The byte that stands for the kind.
    pub fn number(self) -> u8
        ensures { result ≡ record_kind_number self }
    {
        self as u8
    }
}

impl TryFrom<u8> for RecordKind {
    type Error = UnknownNumber;

    ghost try_from_gives = { RecordKindIs };

    fn try_from(byte: u8) -> Result<Self, UnknownNumber> {
        match byte {
            1 => Ok(RecordKind::Name),
            2 => Ok(RecordKind::Class),
            3 => Ok(RecordKind::Operators),
            4 => Ok(RecordKind::Function),
            5 => Ok(RecordKind::Field),
            6 => Ok(RecordKind::Visibility),
            7 => Ok(RecordKind::Suspend),
            8 => Ok(RecordKind::Variant),
            _ => Err(UnknownNumber(byte)),
        }
    }
}

// What a record that is not malformed says at its front: its kind, its first two numbers (of a class its name and superclass, of an operator set class and
// mask, of the later kinds owner and name; a name has none), its length, the highest id that it uses and that must be defined, and whether it repeats a
// parameter's name, or has Error in a type or a type without end. Where a type has no end, the record's length is that of all that is left.
// `one` and `two` stand in the record's bytes alike for all kinds, and the index compares both alike for all kinds; a name, which has neither, has 0 in both.
// `top` is 0 where no id is used: each table defines the name 0.
#[derive(Clone, Copy)]
pub struct Head {
    pub kind: RecordKind,
    pub one: u16,
    pub two: u16,
    pub len: usize,
    pub top: u16,
    pub repeated: bool,
    pub error: bool,
}

// What an id that may be none counts for the highest id: 0 for none, since each table defines the name 0.
#[tactic(auto, unfolding(crate::specs::Inside::Front::or_none, ty::specs::Name::known_id, ty::specs::Choose::choose))]
pub fn or_none(id: u16) -> u16
    ensures { result ≡ or_none id }
{
    known_id(id).unwrap_or(0)
}

// A record of n bytes with no type in it.
#[tactic(auto, unfolding(crate::specs::Inside::Front::plain_head, ty::specs::Choose::choose))]
fn plain(
    s: &[u8],
    n: usize,
    bad: bool,
    kind: RecordKind,
    one: u16,
    two: u16,
    top: u16,
) -> Option<Head>
    ensures { front_at s.now result ≡ plain_head s.now n bad (record_kind_number kind) one two top }
{
    if (s.len() < n) || bad {
        return None;
    }
    Some(Head {
        kind,
        one,
        two,
        len: n,
        top,
        repeated: false,
        error: false,
    })
}

// Without a branch, so that good_part can take many bytes at a time (docs/history/speed.md): a byte inside the name is not zero, one behind it is.
fn good_byte(n: u8, i: u8, b: u8) -> bool
    ensures { result ≡ good_byte n i b }
{
    ((i < n) ^ (b == 0)) & ((b == 0) | ((33 <= b) & ((b <= 126) & (!(b == 46)))))
}

// Sixteen bytes of a name of n bytes, the first being byte `from` of it: so many bytes fill a register (docs/history/order-3-speed.md).
#[tactic(auto, unfolding(crate::specs::Inside::Front::good_part))]
fn good_part(part: &[u8], from: u8, n: u8) -> bool
    requires { from ≤ 8 }
    ensures { result ≡ good_part 16 from part.now n }
{
    let mut good = true;
    for i in 0..16 {
        good = good_byte(n, i as u8 + from, byte_at(part, i)) & good;
    }
    good
}

// The name record at the front of s, whose first byte the caller has found to be a name's; none where it is malformed or cut.
#[tactic(auto, using(crate::proofs::GoodNames::name_rules), unfolding(crate::specs::Inside::Front::name_head))]
pub fn read_name(s: &[u8]) -> Option<Head>
    ensures { front_at s.now result ≡ name_head s.now }
{
    if s.len() < NAME_BYTES {
        return None;
    }
    let n = byte_at(s, 1);
    // the 24 bytes as two parts, eight of them in both
    let good = good_part(&s[2..18], 0, n) & good_part(&s[10..26], 8, n);
    plain(
        s,
        NAME_BYTES,
        (n < 1) | ((24 < n) | (!good)),
        RecordKind::Name,
        0,
        0,
        0,
    )
}

// The record at the front of s, and none where it is malformed or cut.
#[tactic(auto, using(crate::proofs::Bounds::head_bounded, crate::proofs::RecordSizes::no_kind), unfolding(crate::specs::Inside::Front::front_of))]
pub fn read_record(s: &[u8]) -> Option<Head>
    requires { 0 < length s.now }
    ensures { HeadIs s.now result }
{
    read_kind(s, RecordKind::try_from(s[0]).ok()?)
}

// How many bytes the record at the front of s takes, when that was read there: all of them, where it is malformed or cut.
pub fn record_len(s: &[u8], head: Option<Head>) -> usize
    ensures { result ≡ (front_at s.now head).len }
{
    head.map_or(s.len(), |head| head.len)
}

#[tactic(auto, using(crate::proofs::Bounds::short_head), unfolding(crate::specs::Inside::Front::head_by, ty::specs::Choose::choose))]
fn read_kind(s: &[u8], kind: RecordKind) -> Option<Head>
    ensures { front_at s.now result ≡ head_by (record_kind_number kind) s.now }
{
    if s.len() < 5 {
        return None;
    }
    let one = id_at(s, 1);
    let two = id_at(s, 3);
    match kind {
        RecordKind::Name => read_name(s),
        RecordKind::Class => {
            let interfaces = or_none(id_at(s, 5)).max(or_none(id_at(s, 7)));
            let top = one.max(or_none(two).max(interfaces.max(or_none(id_at(s, 9)))));
            plain(s, CLASS_BYTES, 1 < byte_at(s, 11), kind, one, two, top)
        }
        RecordKind::Operators => plain(s, 5, 2047 < two, kind, one, two, one),
        RecordKind::Function => read_function_head(s),
        RecordKind::Field => typed_record(s, kind, Reading::new(one.max(two)).typed(s, 5)),
        RecordKind::Visibility => plain(s, 6, 3 < byte_at(s, 5), kind, one, two, one.max(two)),
        RecordKind::Suspend => plain(s, 5, false, kind, one, two, or_none(one).max(two)),
        RecordKind::Variant => plain(s, 5, false, kind, one, two, one.max(two)),
    }
}
