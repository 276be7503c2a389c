// The search trees of the index.
ghost use Rattle.std.specs.Prelude.{◌≡◌, ℕ, ◌+◌, ◌-◌, ◌≤◌, ◌<◌, ltb, length, drop, take};
ghost use Rattle.ty.specs.Choose.{choose};
ghost use Rattle.index.specs.Inside.Bucket.{word_at, round_of, digest_of};
ghost use Rattle.record.specs.Inside.Walk.{WholeRecordAt};
ghost use Rattle.index.specs.Inside.SearchKey.{tree_for, digits_for, digit_for, key_matches, KeyIn};
ghost use Rattle.record.specs.Inside.FrontRecord.{front_record};
ghost use Rattle.index.specs.Inside.Spot.{Open};
ghost use Rattle.index.specs.Inside.TreeWalk.{tree_start, spot_at, TreeStepAsked, tree_step, search_of};

use crate::index::{
    Place, bucket_count, child_at, has_ids, has_one_id, key_bucket, place_at, reduced,
};
use record::front::RecordKind;
use record::spelling::name_hash;
use ty::{byte_at, same_bytes};

// What a search looks for: the name of the record at a place, or a kind from 2 on with its ids, `two` being 0 where the kind has one id: no search looks at it.
// The kind is a number, as it is compared with the table's byte at each record of a search; a RecordKind would be made its number there.
// A place and no bytes: with bytes a key would borrow the table, and each definition on keys would read through it. So a key goes with its table (KeyIn: a
// name's place lies in it, a kind is from 2 on). An enum of its own, as neither kind of key is a none or an error.
#[derive(Clone, Copy)]
pub enum Key {
    Name(Place),
    Ids { kind: u8, one: u16, two: u16 },
}

// The 24 bytes of the name record at p.
pub fn name_at(t: &[u8], p: usize) -> &[u8]
    requires { p + 26 ≤ length t.now }
    ensures { result.now ≡ take 24 (drop (p + 2) t.now) }
{
    let from = p + 2;
    let to = p + 26;
    &t[from..to]
}

// The tree of a key.
pub fn tree_of(t: &[u8], key: Key) -> usize
    requires { KeyIn t.now key }
    ensures { (result ≡ tree_for t.now key) × (result < 16384) }
{
    let n = t.len();
    match key {
        Key::Name(place) => reduced(name_hash(name_at(t, place.at)), n),
        Key::Ids { kind, one, two } => bucket_count(n) + reduced(key_bucket(kind, one, two), n),
    }
}

// Four bytes of a name as a number, low byte first, with 0 past the end.
#[tactic(auto, unfolding(crate::specs::Inside::Bucket::word_at))]
fn word_at(name: &[u8], i: usize) -> usize
    requires { i < 4294967296 }
    ensures { (result ≡ word_at name.now i) × (result < 4294967296) }
{
    u32::from_le_bytes([
        byte_at(name, i),
        byte_at(name, i + 1),
        byte_at(name, i + 2),
        byte_at(name, i + 3),
    ]) as usize
}

// A round of the digest: the upper half and the word, times the lower half made odd; then the lower half is added to the product's upper half.
// In numbers of 64 bits with / and %, as the definition has it (specs/Inside/Bucket).
#[tactic(auto, unfolding(crate::specs::Inside::Bucket::product_of, crate::specs::Inside::Bucket::round_of))]
fn digest_round(s: usize, w: usize) -> usize
    requires { w < 4294967296 }
    ensures { result ≡ round_of s w }
{
    let low = s % 4294967296;
    let p = (s / 4294967296 + w) % 4294967296 * (low / 2 * 2 + 1);
    (p / 4294967296 + low) % 4294967296 * 4294967296 + p % 4294967296
}

// A number of 64 bits for 24 bytes of a name, each of which is used twice or more, so that no part of the name sets it alone.
#[tactic(auto, unfolding(crate::specs::Inside::Bucket::digest_of))]
fn digest(name: &[u8]) -> usize
    ensures { result ≡ digest_of 15 name.now }
{
    let mut s: usize = 11400714819323198485;
    // By place: the six words are read two and a half times.
    for k in 0..15usize {
        s = digest_round(s, word_at(name, 4 * k % 24));
    }
    s
}

// The second id where it belongs to the key, else 0.
#[tactic(auto, unfolding(ty::specs::Choose::choose))]
fn second(kind: u8, two: u16) -> usize
    ensures { (result ≡ choose (ltb kind 4) 0 two) × (result < 65536) }
{
    if has_one_id(kind) {
        return 0;
    }
    two as usize
}

// The number that a key's digits are taken from behind d records; h is that behind one record less.
#[tactic(auto, using(crate::proofs::Buckets::digit_rules), unfolding(crate::specs::Inside::Bucket::key_digits))]
fn digits(t: &[u8], key: Key, h: usize, d: usize) -> usize
    requires { KeyIn t.now key × (0 < d → h ≡ digits_for t.now key (d - 1)) }
    ensures { result ≡ digits_for t.now key d }
{
    match key {
        Key::Name(place) => {
            if d == 0 {
                return name_hash(name_at(t, place.at)) / 8192;
            }
            if d == 1 {
                return digest(name_at(t, place.at));
            }
            h
        }
        Key::Ids { kind, one, two } => one as usize + 65536 * second(kind, two),
    }
}

// Which way a search goes behind d records.
#[tactic(auto, using(crate::proofs::Buckets::digit_mixed, crate::proofs::Buckets::digit_own), unfolding(crate::specs::Inside::Bucket::key_digit))]
fn digit(t: &[u8], key: Key, h: usize, d: usize) -> usize
    requires { KeyIn t.now key × (h ≡ digits_for t.now key d) }
    ensures { (result ≡ digit_for t.now key d) × (result < 8) }
{
    match key {
        Key::Name(place) => {
            if d < 21 {
                return (h >> (3 * d)) % 8;
            }
            let b = byte_at(name_at(t, place.at), d % 24);
            (b as usize >> (3 * (d / 24 % 3))) % 8
        }
        Key::Ids {
            kind: _,
            one: _,
            two: _,
        } => (h >> (d % 32)) % 2,
    }
}

// The record at p has a key. The clause ties the record to the table's bytes: a search runs while the table is checked, too, before there is a Table.
#[tactic(auto, using(crate::proofs::Earlier::has_other, crate::proofs::Earlier::has_name, crate::proofs::Earlier::has_ids, crate::proofs::Earlier::has_room))]
fn has(t: &[u8], p: usize, key: Key) -> bool
    requires { WholeRecordAt t.now p × KeyIn t.now key × (length t.now ≤ 60000) }
    ensures { result ≡ key_matches t.now key (front_record (drop p t.now)) }
{
    match key {
        Key::Name(place) => {
            // A test of the byte, as has_ids makes it.
            if byte_at(t, p) != RecordKind::Name.number() {
                return false;
            }
            same_bytes(name_at(t, p), name_at(t, place.at))
        }
        Key::Ids { kind, one, two } => has_ids(t, p, kind, one, two),
    }
}

// A place in the tree of a key: an entry of the index, the record here (none where the entry is empty), how many records are above it, and the number that the
// last digit was taken from. A cursor that each step hands back, as document 01 has it (docs/DECISIONS.md, "Forms that document 01 names"), and no Iterator.
#[derive(Clone, Copy)]
pub struct TreeCursor {
    pub entry: usize,
    pub here: Option<Place>,
    pub depth: usize,
    pub digits: usize,
}

impl TreeCursor {
    // At the root of tree b.
    #[tactic(auto, unfolding(crate::specs::Inside::TreeWalk::tree_start))]
    pub fn new(x: &[u16], b: usize) -> TreeCursor
        requires { b < 16384 }
        ensures { result ≡ tree_start x.now b }
    {
        let entry = 1 + b;
        TreeCursor {
            entry,
            here: place_at(x, entry),
            depth: 0,
            digits: 0,
        }
    }

    // The record here, or the empty entry.
    pub fn spot(self) -> Result<Place, usize>
        ensures { result ≡ spot_at self }
    {
        self.here.ok_or(self.entry)
    }

    // One record down from the record p here, as the key's next digit says. It takes bytes and index, as `search` does.
    #[tactic(auto, unfolding(crate::specs::Inside::TreeWalk::tree_step))]
    pub fn step(self, t: &[u8], x: &[u16], key: Key, p: Place) -> TreeCursor
        requires { TreeStepAsked t.now key self }
        ensures { result ≡ tree_step t.now x.now key self p }
    {
        let h = digits(t, key, self.digits, self.depth);
        let entry = child_at(t.len(), p.at, digit(t, key, h, self.depth));
        TreeCursor {
            entry,
            here: place_at(x, entry),
            depth: self.depth + 1,
            digits: h,
        }
    }
}

// Searches for a key in its tree b: a record with the key, or the empty entry where such a record would stand. It takes a table's bytes and its index, as the
// check of a table searches while it makes the index (Open).
pub fn search(t: &[u8], x: &[u16], key: Key, b: usize) -> Result<Place, usize>
    requires { Open t.now x.now × KeyIn t.now key × (b ≡ tree_for t.now key) }
    ensures { result ≡ search_of t.now x.now key }
{
    let mut c = TreeCursor::new(x, b);
    // A `while`: no bound to count to, the next entry stands in the record here.
    while let Some(p) = c.here {
        if has(t, p.at, key) {
            return Ok(p);
        }
        c = c.step(t, x, key, p);
    }
    c.spot()
}
