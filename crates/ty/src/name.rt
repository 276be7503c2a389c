// The ids of names.
ghost use Rattle.std.specs.Prelude.{◌≡◌};
ghost use Rattle.ty.specs.Name.{id_defined, known_id, id_number};

// The number of a name, with the numbers of the built-in names. They are u16, since ids are compared with ids that are read from bytes; an enum would have no
// value for a table's own names. The constants belong to a name-id type, as document 01 has it; no value of it is made (docs/DECISIONS.md, 36).
#[derive(Clone, Copy)]
pub struct NameId(pub u16);

impl NameId {
    pub const PAIR: u16 = 0;

    pub const LIST: u16 = 1;

    pub const ARRAY_LIST: u16 = 2;

    pub const MUTABLE_LIST: u16 = 3;

    pub const ARRAY: u16 = 4;

    pub const SET_CLASS: u16 = 5;

    pub const PLUS: u16 = 6;

    pub const MINUS: u16 = 7;

    pub const TIMES: u16 = 8;

    pub const DIV: u16 = 9;

    pub const MOD: u16 = 10;

    pub const EQ: u16 = 11;

    pub const NE: u16 = 12;

    pub const LT: u16 = 13;

    pub const GT: u16 = 14;

    pub const LE: u16 = 15;

    pub const GE: u16 = 16;

    pub const TO_STRING: u16 = 17;

    pub const HASH_CODE: u16 = 18;

    pub const EQUALS: u16 = 19;

    pub const FIRST: u16 = 20;

    pub const SECOND: u16 = 21;

    pub const SIZE: u16 = 22;

    pub const COUNT: u16 = 23;

    pub const IS_EMPTY: u16 = 24;

    pub const LAST: u16 = 25;

    pub const GET: u16 = 26;

    pub const GET_AT: u16 = 27;

    pub const SET: u16 = 28;

    pub const ADD: u16 = 29;

    pub const PUSH: u16 = 30;

    pub const APPEND: u16 = 31;

    pub const CONTAINS: u16 = 32;

    pub const INDEX_OF: u16 = 33;

    pub const LENGTH: u16 = 34;

    pub const IS_NOT_EMPTY: u16 = 35;

    pub const TRIM: u16 = 36;

    pub const LOWERCASE: u16 = 37;

    pub const UPPERCASE: u16 = 38;

    pub const KEYS: u16 = 39;

    // The first id of a table's names.
    pub const FIRST_OF_TABLE: u16 = 40;

    // No name, in owner, superclass, interface and package fields.
    pub const NONE: u16 = 65535;
}

// An id as the table has it, where NameId::NONE means none.
#[tactic(auto, unfolding(crate::specs::Name::known_id, crate::specs::Choose::choose))]
pub fn known_id(id: u16) -> Option<u16>
    ensures { result ≡ known_id id }
{
    if id == NameId::NONE {
        return None;
    }
    Some(id)
}

// The same the other way round.
pub fn id_number(id: Option<u16>) -> u16
    ensures { result ≡ id_number id }
{
    id.unwrap_or(NameId::NONE)
}

// Whether an id is a built-in name's or that of one of so many table names.
pub fn id_defined(id: u16, names: u16) -> bool
    ensures { result ≡ id_defined id names }
{
    (id as usize) < (NameId::FIRST_OF_TABLE as usize) + (names as usize)
}
