// The spellings of the built-in names, and the hash of a name.
ghost use Rattle.std.specs.Prelude.{◌≡◌, ◌≤◌, ◌<◌};
ghost use Rattle.record.specs.Inside.NameHash.{eight_at, weighed_of, hash_of};
ghost use Rattle.record.specs.Inside.Sieve.{may_be_builtin};
ghost use Rattle.record.specs.Spelling.{builtin_names, spelled};

use ty::{byte_at, same_bytes};

// The built-in spellings, Pair to keys in the order of their ids: 24 bytes each, zero-padded.
static BUILTINS: [[u8; 24]; 40] = [
    *b"Pair\0\0\0\0\0\0\0\0\0\0\0\0\0\0\0\0\0\0\0\0",
    *b"List\0\0\0\0\0\0\0\0\0\0\0\0\0\0\0\0\0\0\0\0",
    *b"ArrayList\0\0\0\0\0\0\0\0\0\0\0\0\0\0\0",
    *b"MutableList\0\0\0\0\0\0\0\0\0\0\0\0\0",
    *b"Array\0\0\0\0\0\0\0\0\0\0\0\0\0\0\0\0\0\0\0",
    *b"Set\0\0\0\0\0\0\0\0\0\0\0\0\0\0\0\0\0\0\0\0\0",
    *b"plus\0\0\0\0\0\0\0\0\0\0\0\0\0\0\0\0\0\0\0\0",
    *b"minus\0\0\0\0\0\0\0\0\0\0\0\0\0\0\0\0\0\0\0",
    *b"times\0\0\0\0\0\0\0\0\0\0\0\0\0\0\0\0\0\0\0",
    *b"div\0\0\0\0\0\0\0\0\0\0\0\0\0\0\0\0\0\0\0\0\0",
    *b"mod\0\0\0\0\0\0\0\0\0\0\0\0\0\0\0\0\0\0\0\0\0",
    *b"eq\0\0\0\0\0\0\0\0\0\0\0\0\0\0\0\0\0\0\0\0\0\0",
    *b"ne\0\0\0\0\0\0\0\0\0\0\0\0\0\0\0\0\0\0\0\0\0\0",
    *b"lt\0\0\0\0\0\0\0\0\0\0\0\0\0\0\0\0\0\0\0\0\0\0",
    *b"gt\0\0\0\0\0\0\0\0\0\0\0\0\0\0\0\0\0\0\0\0\0\0",
    *b"le\0\0\0\0\0\0\0\0\0\0\0\0\0\0\0\0\0\0\0\0\0\0",
    *b"ge\0\0\0\0\0\0\0\0\0\0\0\0\0\0\0\0\0\0\0\0\0\0",
    *b"toString\0\0\0\0\0\0\0\0\0\0\0\0\0\0\0\0",
    *b"hashCode\0\0\0\0\0\0\0\0\0\0\0\0\0\0\0\0",
    *b"equals\0\0\0\0\0\0\0\0\0\0\0\0\0\0\0\0\0\0",
    *b"first\0\0\0\0\0\0\0\0\0\0\0\0\0\0\0\0\0\0\0",
    *b"second\0\0\0\0\0\0\0\0\0\0\0\0\0\0\0\0\0\0",
    *b"size\0\0\0\0\0\0\0\0\0\0\0\0\0\0\0\0\0\0\0\0",
    *b"count\0\0\0\0\0\0\0\0\0\0\0\0\0\0\0\0\0\0\0",
    *b"isEmpty\0\0\0\0\0\0\0\0\0\0\0\0\0\0\0\0\0",
    *b"last\0\0\0\0\0\0\0\0\0\0\0\0\0\0\0\0\0\0\0\0",
    *b"get\0\0\0\0\0\0\0\0\0\0\0\0\0\0\0\0\0\0\0\0\0",
    *b"getAt\0\0\0\0\0\0\0\0\0\0\0\0\0\0\0\0\0\0\0",
    *b"set\0\0\0\0\0\0\0\0\0\0\0\0\0\0\0\0\0\0\0\0\0",
    *b"add\0\0\0\0\0\0\0\0\0\0\0\0\0\0\0\0\0\0\0\0\0",
    *b"push\0\0\0\0\0\0\0\0\0\0\0\0\0\0\0\0\0\0\0\0",
    *b"append\0\0\0\0\0\0\0\0\0\0\0\0\0\0\0\0\0\0",
    *b"contains\0\0\0\0\0\0\0\0\0\0\0\0\0\0\0\0",
    *b"indexOf\0\0\0\0\0\0\0\0\0\0\0\0\0\0\0\0\0",
    *b"length\0\0\0\0\0\0\0\0\0\0\0\0\0\0\0\0\0\0",
    *b"isNotEmpty\0\0\0\0\0\0\0\0\0\0\0\0\0\0",
    *b"trim\0\0\0\0\0\0\0\0\0\0\0\0\0\0\0\0\0\0\0\0",
    *b"lowercase\0\0\0\0\0\0\0\0\0\0\0\0\0\0\0",
    *b"uppercase\0\0\0\0\0\0\0\0\0\0\0\0\0\0\0",
    *b"keys\0\0\0\0\0\0\0\0\0\0\0\0\0\0\0\0\0\0\0\0",
];

// A name's 24 bytes are one of the rows.
fn in_rows(name: &[u8], rows: &[[u8; 24]]) -> bool
    ensures { result ≡ spelled name.now rows.now }
{
    rows.iter().any(|row| same_bytes(name, row))
}

// Eight bytes of a name from byte i on as a number, low byte first, with 0 past the end.
#[tactic(auto, unfolding(crate::specs::Inside::NameHash::eight_at))]
fn eight_at(name: &[u8], i: usize) -> u64
    requires { i ≤ 16 }
    ensures { result ≡ eight_at name.now i }
{
    u64::from_le_bytes([
        byte_at(name, i),
        byte_at(name, i + 1),
        byte_at(name, i + 2),
        byte_at(name, i + 3),
        byte_at(name, i + 4),
        byte_at(name, i + 5),
        byte_at(name, i + 6),
        byte_at(name, i + 7),
    ])
}

// The three parts of a name, each of eight bytes, times an odd number of its own, so that no product waits for another.
#[tactic(auto, using(crate::proofs::NameHashes::three_sum), unfolding(crate::specs::Inside::NameHash::weighed_of))]
fn weighed(name: &[u8]) -> u64
    ensures { result ≡ weighed_of name.now }
{
    let one = eight_at(name, 0).wrapping_mul(15837372998040177803);
    let two = eight_at(name, 8).wrapping_mul(15377906377925924563);
    let three = eight_at(name, 16).wrapping_mul(17415691914075052159);
    one.wrapping_add(two).wrapping_add(three)
}

// The hash of a name.
#[tactic(auto, unfolding(crate::specs::Inside::NameHash::hash_of))]
pub fn name_hash(name: &[u8]) -> usize
    ensures { (result ≡ hash_of name.now) × (result < 65536) }
{
    let sum = weighed(name);
    (((sum >> 48) + (sum >> 56)) % 65536) as usize
}

// A bit for each hash modulo 1,024 that a built-in spelling has, 64 to a word.
static SIEVE: [u64; 16] = [
    8796093022464,
    18300271801139200,
    0,
    144132780261900356,
    9359043042738176,
    288230376151711746,
    9216,
    290271069733124,
    36028797023166472,
    0,
    32896,
    8192,
    10995116277760,
    4295033088,
    139264,
    18014398543036432,
];

// A name's hash has its bit: so has each built-in spelling's, and few other names', so that few are compared with the spellings.
#[tactic(auto, unfolding(crate::specs::Inside::Sieve::may_be_builtin, crate::specs::Inside::Sieve::sieve_words))]
fn may_be_builtin(h: usize) -> bool
    ensures { result ≡ may_be_builtin h }
{
    (SIEVE[h / 64 % 16] >> (h % 64)) % 2 == 1
}

// A name's 24 bytes, whose hash is h, are a built-in spelling. The hash is asked, as a name's is found once. Few names need the rows.
#[tactic(auto, using(crate::proofs::SpellingRows::not_spelled), unfolding(crate::specs::Spelling::builtin_names))]
pub fn is_builtin(name: &[u8], h: usize) -> bool
    requires { h ≡ hash_of name.now }
    ensures { result ≡ spelled name.now builtin_names }
{
    if !may_be_builtin(h) {
        return false;
    }
    in_rows(name, &BUILTINS)
}
