// Reading one type from the front of some bytes.
ghost use Rattle.std.specs.Prelude.{◌≡◌, ◌≤◌};
ghost use Rattle.ty.specs.Bytes.{id_at, size_width};
ghost use Rattle.ty.specs.Read.{body_length, child_count, good_array, good_body, id_in, number_at, item_at, read_type, no_end};

use crate::{Kind, byte_at, id_at, is_array_kind, size_width};

// The longest type in a table or a leaf.
pub const LONGEST_TYPE: u16 = 192;

// From here on an Array's size needs eight bytes.
const LARGE_SIZE: u64 = 1 << 32;

// A type that ends before byte len. `top` is the highest id that was examined, and 0 where none was: each table defines the name 0, so that no id and the id 0
// ask the same of a table. `error` says whether Error was examined.
#[derive(Clone, Copy)]
pub struct TypeRead {
    pub len: usize,
    pub top: u16,
    pub error: bool,
}

// Why there is no such type.
#[derive(Clone, Copy)]
pub enum TypeFault {
    // The bytes end before the type does, and before the limit.
    Cut,
    Malformed,
    // No end within the limit; `top` and `error` as in a TypeRead.
    Endless { top: u16, error: bool },
}

// A kind with its body, which ends before byte next.
#[derive(Clone, Copy)]
struct Item {
    next: usize,
    children: usize,
    id: u16,
    error: bool,
}

#[derive(Clone, Copy)]
enum ItemFault {
    Broken,
    // It is not wholly inside the bytes that are examined.
    Out,
}

// Reading tests the kind's number: a match on an enum of it took 2.3 times as long in read_type, and no row of the benchmark may take over 5 in 100 more
// than before (docs/DECISIONS.md, 46).

#[tactic(auto, unfolding(crate::specs::Read::body_length, crate::specs::Bytes::size_width, crate::specs::Choose::choose))]
fn body_length(k: u8) -> usize
    ensures { result ≡ body_length k }
{
    if is_array_kind(k) {
        return 1 + size_width(k);
    }
    if (k == Kind::Named as u8) | (k == Kind::Module as u8) {
        return 2;
    }
    if k == Kind::TypeVar as u8 {
        return 4;
    }
    if k == Kind::Function as u8 {
        return 1;
    }
    0
}

#[tactic(auto, unfolding(crate::specs::Read::child_count, crate::specs::Choose::choose))]
fn child_count(k: u8, c: u8) -> usize
    ensures { result ≡ child_count k c }
{
    if k == Kind::Function as u8 {
        return c as usize + 1;
    }
    if k == Kind::Map as u8 {
        return 2;
    }
    if ((k >= Kind::Nullable as u8) & (k <= Kind::List as u8)) | is_array_kind(k) {
        return 1;
    }
    0
}

// The number in an Array's size, which begins at `at`. Bytes past the end count as 0.
#[tactic(auto, unfolding(crate::specs::Read::number_at, crate::specs::Bytes::size_width, crate::specs::Choose::choose))]
fn size_at(s: &[u8], k: u8, at: usize) -> u64
    requires { at ≤ 65537 }
    ensures { result ≡ number_at (size_width k) s.now at }
{
    if k == Kind::LargeArray as u8 {
        return u64::from_le_bytes([
            byte_at(s, at),
            byte_at(s, at + 1),
            byte_at(s, at + 2),
            byte_at(s, at + 3),
            byte_at(s, at + 4),
            byte_at(s, at + 5),
            byte_at(s, at + 6),
            byte_at(s, at + 7),
        ]);
    }
    u32::from_le_bytes([
        byte_at(s, at),
        byte_at(s, at + 1),
        byte_at(s, at + 2),
        byte_at(s, at + 3),
    ]) as u64
}

// An Array with the flag c and the size n.
#[tactic(auto, unfolding(crate::specs::Choose::choose))]
fn good_array(k: u8, c: u8, n: u64) -> bool
    ensures { result ≡ good_array k c n }
{
    if k == Kind::LargeArray as u8 {
        return (c == 1) & (n >= LARGE_SIZE);
    }
    (c == 1) | ((c == 0) & (n == 0))
}

// A body that begins with c. An Array's size, which begins at `at`, is read where there is an Array.
fn good_body(s: &[u8], k: u8, c: u8, at: usize) -> bool
    requires { at ≤ 65537 }
    ensures { result ≡ good_body k c (number_at (size_width k) s.now at) }
{
    if is_array_kind(k) {
        return good_array(k, c, size_at(s, k, at));
    }
    (k != Kind::Function as u8) | (c <= 16)
}

// The id that begins at `at`, and 0 where the kind has none: each table defines the name 0.
#[tactic(auto, unfolding(crate::specs::Read::id_in, crate::specs::Choose::choose))]
fn id_in(s: &[u8], k: u8, at: usize) -> u16
    ensures { result ≡ id_in k (id_at s.now at) }
{
    if (k == Kind::Named as u8) | (k == Kind::Module as u8) {
        return id_at(s, at);
    }
    0
}

// The kind with its body at `at`, within the first `end` bytes.
#[tactic(auto, unfolding(crate::specs::Read::item_at, crate::specs::Read::item_of, crate::specs::Choose::choose))]
fn item_at(s: &[u8], end: usize, at: usize) -> Result<Item, ItemFault>
    requires { end ≤ 65535 }
    ensures { result ≡ item_at s.now end at }
{
    if end <= at {
        return Err(ItemFault::Out);
    }
    let k = byte_at(s, at);
    if k > Kind::LargeArray as u8 {
        return Err(ItemFault::Broken);
    }
    let n = body_length(k);
    if end - (at + 1) < n {
        return Err(ItemFault::Out);
    }
    let c = byte_at(s, at + 1);
    if good_body(s, k, c, at + 2) {
        Ok(Item {
            next: at + 1 + n,
            children: child_count(k, c),
            id: id_in(s, k, at + 1),
            error: k == Kind::Error as u8,
        })
    } else {
        Err(ItemFault::Broken)
    }
}

// What is found where the type does not end within the limit.
#[tactic(auto, unfolding(crate::specs::Read::no_end, crate::specs::Choose::choose))]
fn no_end(len: usize, limit: usize, top: u16, error: bool) -> TypeFault
    ensures { result ≡ no_end len limit top error }
{
    if len < limit {
        TypeFault::Cut
    } else {
        TypeFault::Endless { top, error }
    }
}

// Reads one type from the front of s, of at most `limit` bytes.
pub fn read_type(s: &[u8], limit: u16) -> Result<TypeRead, TypeFault>
    ensures { result ≡ read_type s.now limit }
{
    let cap = limit as usize;
    let len = s.len();
    let end = len.min(cap);
    let mut at: usize = 0;
    let mut pending: usize = 1;
    let mut top: u16 = 0;
    let mut error = false;
    // no range to go over: what is pending grows with each child and falls with each item
    while pending != 0 {
        match item_at(s, end, at) {
            Err(ItemFault::Broken) => {
                return Err(TypeFault::Malformed);
            }
            Err(ItemFault::Out) => {
                return Err(no_end(len, cap, top, error));
            }
            Ok(item) => {
                at = item.next;
                pending = pending - 1 + item.children;
                top = top.max(item.id);
                error = error | item.error;
            }
        }
    }
    Ok(TypeRead {
        len: at,
        top,
        error,
    })
}
