// Reading one function of an accepted table.
ghost use Rattle.std.specs.Prelude.{◌≡◌, ◌++◌, ◌∷◌, [], ◌≤◌, ◌<◌, length};
ghost use Rattle.symbol.specs.Inside.LookupAnswer.{overload_at};
ghost use Rattle.symbol.specs.Inside.FunctionFields.{params_laid, function_at};
ghost use Rattle.index.specs.Inside.Found.{FunctionAt};
ghost use Rattle.record.specs.Inside.Keyed.{whole_length, type_length};
ghost use Rattle.symbol.specs.Inside.ParamsRow.{part, ParamsAt};
ghost use Rattle.record.specs.Inside.Walk.{behind};

use index::index::Place;
use record::front::{LONGEST, read_record, record_len};
use std::marker::Model;
use ty::read::{TypeFault, read_type};
use ty::{Part, TypeRead, byte_at, id_at};

// A parameter of a function: its name, whether it has a default and is vararg, and where its type lies in the table.
#[derive(Clone, Copy, Default)]
pub struct Param {
    pub name: u16,
    pub default: bool,
    pub vararg: bool,
    pub part: Part,
}

// At most 16 of them, in an array of a fixed length since the judge has no heap. Each place behind them is blank, so that the list gives the fields back, which
// Copy needs. scoring's Args and overload's Classes are twins: no generic struct holds an array of its parameter.
#[derive(Clone, Copy)]
pub struct Params {
    items: [Param; 16],
    count: usize,
}

impl Model for Params {
    ghost use Rattle.std.specs.Prelude.{List, length, take};
    ghost use Rattle.symbol.specs.declared.functions.Param.{Param};
    ghost use Rattle.symbol.specs.Inside.NoParam.{no_param};
    ghost use Rattle.symbol.specs.Inside.Occupied.{Occupied, with_blanks, occupied_all, occupied_length};

    ghost Value = { List Param };

    ghost view = { λ s. take s.count s.items };

    ghost invariant = { λ s. Occupied no_param s.count s.items };

    ghost inverse = { λ xs. record { items = with_blanks no_param xs; count = length xs } };

    ghost inverse_ok = { λ s h i. record { items = occupied_all h i; count = occupied_length h i } };
}

impl Params {
    // No parameters.
    pub fn new() -> Params
        ensures { result ≡ [] }
    {
        Params {
            items: [Param::default(); 16],
            count: 0,
        }
    }

    // How many there are.
    pub fn len(&self) -> usize
        ensures value { result ≡ length self.now }
        ensures fits { result ≤ 16 }
    {
        self.count
    }

    // The parameters, one behind another.
    pub fn as_slice(&self) -> &[Param]
        ensures value { result.now ≡ self.now }
        ensures fits { length result.now ≤ 16 }
    {
        &self.items[..self.count]
    }

    // One parameter more.
    pub fn push(&mut self, p: Param)
        requires { length self.old < 16 }
        ensures { self.new ≡ self.old ++ p ∷ [] }
    {
        self.items[self.count] = p;
        self.count += 1;
    }
}

// A function; its visibility is the record's byte, and its result type lies in the table.
#[derive(Clone, Copy)]
pub struct Function {
    pub builtin: bool,
    pub visibility: u8,
    pub result: Part,
    pub params: Params,
}

// How long a type is that was read so. A total reader, which has to answer for each byte: an accepted table has whole types.
fn whole_length(read: Result<TypeRead, TypeFault>) -> usize
    ensures { result ≡ whole_length read }
{
    read.map_or(0, |found| found.len)
}

// The length of the type that begins at from, in the bytes before end.
#[tactic(auto, unfolding(record::specs::Inside::Keyed::type_length))]
fn type_length(t: &[u8], from: usize, end: usize) -> usize
    requires { (from ≤ end) × (end ≤ length t.now) }
    ensures { result ≡ type_length (part t.now from end) }
{
    whole_length(read_type(&t[from..end], LONGEST))
}

// The parameters that begin at from, in the bytes before end.
fn read_params(t: &[u8], from: usize, end: usize, count: usize) -> Params
    requires { (from ≤ end) × (end ≤ length t.now) × (count ≤ 16) × ParamsAt count (part t.now from end) }
    ensures { result ≡ params_laid t.now end count from }
{
    // at goes on by hand: where the next one begins is known once this one is read.
    let mut at = from;
    let mut p = Params::new();
    for _n in 0..count {
        let start = at + 3;
        let len = type_length(t, start, end);
        let flag = byte_at(t, at + 2);
        p.push(Param {
            name: id_at(t, at),
            default: flag % 2 == 1,
            vararg: 2 <= flag,
            part: Part { start, len },
        });
        at = start + len;
    }
    p
}

// The function at a place, whose record ends before `end`. That a function stands there is asked here and below, and is in no type: a place by itself is of no
// table, and a type for both would borrow the table wherever a place is kept.
fn read_whole(t: &[u8], p: Place, end: usize) -> Function
    requires { FunctionAt t.now p × (end ≡ behind t.now p.at) }
    ensures { result ≡ function_at t.now p }
{
    let at = p.at;
    let start = at + 8;
    let len = type_length(t, start, end);
    let params = read_params(t, start + len, end, byte_at(t, at + 7) as usize);
    Function {
        builtin: byte_at(t, at + 6) == 1,
        visibility: byte_at(t, at + 5),
        result: Part { start, len },
        params,
    }
}

// Where the record at a place ends.
pub(crate) fn end_of(t: &[u8], p: Place) -> usize
    requires { p.at < length t.now }
    ensures { result ≡ behind t.now p.at }
{
    let at = p.at;
    let rest = &t[at..];
    at + record_len(rest, read_record(rest))
}

// The function at a place.
pub fn read_function(t: &[u8], p: Place) -> Function
    requires { FunctionAt t.now p }
    ensures { result ≡ function_at t.now p }
{
    read_whole(t, p, end_of(t, p))
}

// Whether the function at a place is a builtin.
#[tactic(auto, using(crate::proofs::FunctionsRead::function_builtin))]
pub fn is_builtin_function(t: &[u8], p: Place) -> bool
    requires { FunctionAt t.now p }
    ensures { result ≡ (overload_at t.now p).builtin }
{
    byte_at(t, p.at + 6) == 1
}
