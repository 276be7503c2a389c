// The index of a table: its entries.
ghost use Rattle.std.specs.Prelude.{◌≡◌, suc, ◌%◌, ◌≤◌, ◌<◌, ltb, length, get_or, set};
ghost use Rattle.index.specs.Inside.Bucket.{key_bucket};
ghost use Rattle.index.specs.Inside.Found.{place_at};
ghost use Rattle.index.specs.Inside.Index.{size_of, sized, bucket_count, list_count, first_at, last_at, child_at};
ghost use Rattle.index.specs.Inside.SearchKey.{has_ids};

use record::front::RecordKind;
use ty::{byte_at, id_at};

// A table of at most so many bytes has a small index.
pub const SHORT_TABLE: usize = 2048;

// A longer one of at most so many bytes has an index of middle size.
pub const MIDDLE_TABLE: usize = 16384;

// A record that was found, by its first byte.
#[derive(Clone, Copy)]
pub struct Place {
    pub at: usize,
}

impl Place {
    // The entry that gives a place: its first byte, counted from 1.
    pub fn entry(self) -> u16
        requires { self.at < 65535 }
        ensures { result ≡ suc self.at }
    {
        (self.at + 1) as u16
    }
}

// How large the index of a table is.
#[derive(Clone, Copy, PartialEq, Eq)]
pub enum TableSize {
    Short,
    Middle,
    Long,
}

impl TableSize {
    // That of a table of n bytes.
    #[tactic(auto, unfolding(crate::specs::Inside::Index::size_of, ty::specs::Choose::choose))]
    pub fn of(n: usize) -> TableSize
        ensures { result ≡ size_of n }
    {
        if MIDDLE_TABLE < n {
            return TableSize::Long;
        }
        if SHORT_TABLE < n {
            return TableSize::Middle;
        }
        TableSize::Short
    }

    // One of three numbers. They are all given, so that a division is by a constant: the counts and the reductions below share this, with numbers of their own.
    fn pick(self, short: usize, middle: usize, long: usize) -> usize
        ensures { result ≡ sized self short middle long }
    {
        match self {
            TableSize::Short => short,
            TableSize::Middle => middle,
            TableSize::Long => long,
        }
    }
}

// An entry, with 0 past the end; a number, since entry 0 is one, and those of classes ahead are compared.
pub fn entry_at(x: &[u16], i: usize) -> usize
    ensures { result ≡ get_or x.now i 0 }
{
    x.get(i).copied().unwrap_or(0) as usize
}

// The record that an entry gives, by its first byte, counted from 1 there; 0 is none.
#[tactic(auto, unfolding(crate::specs::Inside::Found::place_at))]
pub fn place_at(x: &[u16], i: usize) -> Option<Place>
    ensures { result ≡ place_at x.now i }
{
    Some(Place {
        at: entry_at(x, i).checked_sub(1)?,
    })
}

// Writes an entry: one line, but its clause gives callers the equation with `set`.
pub fn put(x: &mut [u16], i: usize, v: u16)
    requires { i < length x.old }
    ensures { x.new ≡ set x.old i v }
{
    x[i] = v;
}

// How many buckets of names there are for a table of n bytes, and as many of other keys.
#[tactic(auto, using(crate::proofs::Buckets::buckets))]
pub fn bucket_count(n: usize) -> usize
    ensures { (result ≡ bucket_count n) × (result ≤ 8192) }
{
    TableSize::of(n).pick(256, 2048, 8192)
}

// How many buckets of lists there are.
#[tactic(auto, using(crate::proofs::Buckets::buckets))]
pub fn list_count(n: usize) -> usize
    ensures { (result ≡ list_count n) × (result ≤ 1024) }
{
    TableSize::of(n).pick(64, 256, 1024)
}

// The bucket of a number among those of a table of n bytes.
pub fn reduced(h: usize, n: usize) -> usize
    ensures { (result ≡ h % bucket_count n) × (result < bucket_count n) × (result < 8192) }
{
    TableSize::of(n).pick(h % 256, h % 2048, h % 8192)
}

// The bucket of a number among the lists.
pub fn list_reduced(h: usize, n: usize) -> usize
    ensures { (result ≡ h % list_count n) × (result < list_count n) × (result < 1024) }
{
    TableSize::of(n).pick(h % 64, h % 256, h % 1024)
}

// Where the entry of a list's first function stands. The bucket's bound is asked: the check of a table calls this before there is a Table that could say it.
#[tactic(auto, using(crate::proofs::Buckets::buckets))]
pub fn first_at(n: usize, b: usize) -> usize
    requires { b < list_count n }
    ensures { result ≡ first_at n b }
{
    1 + 2 * bucket_count(n) + b
}

// Where the entry of a list's last function stands. The bucket's bound is asked, as `first_at` asks it.
#[tactic(auto, using(crate::proofs::Buckets::buckets))]
pub fn last_at(n: usize, b: usize) -> usize
    requires { b < list_count n }
    ensures { result ≡ last_at n b }
{
    first_at(n, b) + list_count(n)
}

// Where the entry c of the record at p stands. Before those of records stand entry 0, one for each bucket of names and of other keys, two for each bucket of
// lists: 641 is 1 + 2 * 256 + 2 * 64.
#[tactic(auto, using(crate::proofs::Buckets::buckets))]
pub fn child_at(n: usize, p: usize, c: usize) -> usize
    requires { c < 8 }
    ensures { result ≡ child_at n p c }
{
    TableSize::of(n).pick(641, 4609, 18433) + 2 * (p / 5) + c
}

// The key of a record of a kind, 2 or more, is the first id alone. The kind is a number, as lookups make this test of the table's byte at each record.
pub(crate) fn has_one_id(kind: u8) -> bool
    ensures { result ≡ ltb kind 4 }
{
    kind < RecordKind::Function.number()
}

// The record at p is of a kind and has a key. The kind is a number, as it is compared with the table's byte; & and | test all parts without a branch.
pub fn has_ids(t: &[u8], p: usize, kind: u8, one: u16, two: u16) -> bool
    requires { p ≤ 60000 }
    ensures { result ≡ has_ids t.now p kind one two }
{
    (byte_at(t, p) == kind)
        & ((id_at(t, p + 1) == one) & (has_one_id(kind) | (id_at(t, p + 3) == two)))
}

// A number for the key of a record of kind 2 or more.
#[tactic(auto, unfolding(crate::specs::Inside::Bucket::key_bucket, ty::specs::Choose::choose))]
pub fn key_bucket(kind: u8, one: u16, two: u16) -> usize
    ensures { (result ≡ key_bucket kind one two) × (result < 65536) }
{
    if has_one_id(kind) {
        return one as usize;
    }
    (one as usize * 509 + two as usize) % 65536
}
