// The table's cursor, and the walk of the table's check.
ghost use Rattle.std.specs.Prelude.{◌≡◌, ◌≤◌, ◌<◌, ℕ, eqb, length, List};
ghost use Rattle.record.specs.Inside.Front.{front_at};
ghost use Rattle.record.specs.Inside.Walk.{start, StepIs};
ghost use Rattle.record.specs.Inside.NamesBefore.{walk_start, WalkAt, WalkOn, TableStepIs, NameHere, behind_name};

use crate::front::{Head, NAME_BYTES, RecordKind, read_record, record_len};

// A place in the table: the next record's first byte, and how many records are behind.
#[derive(Clone, Copy)]
pub struct Cursor {
    pub at: usize,
    pub index: usize,
}

// A record's front, none where it is malformed or cut, and the cursor behind it.
#[derive(Clone, Copy)]
pub struct Step {
    pub head: Option<Head>,
    pub next: Cursor,
}

impl Cursor {
    // The table's first record.
    pub fn new() -> Cursor
        ensures { result ≡ start }
    {
        Cursor { at: 0, index: 0 }
    }

    // The record here, and the cursor behind it.
    pub fn step(self, t: &[u8]) -> Step
        requires { (self.at < length t.now) × (self.index ≤ self.at) }
        ensures { StepIs t.now self result }
    {
        let at = self.at;
        let rest = &t[at..];
        let head = read_record(rest);
        let next = Cursor {
            at: at + record_len(rest, head),
            index: self.index + 1,
        };
        Step { head, next }
    }
}

// A record's front is that of a name.
fn is_name(head: Option<Head>) -> bool
    ensures { (s : List ℕ) → result ≡ eqb (front_at s head).kind 1 }
{
    head.is_some_and(|head| head.kind == RecordKind::Name)
}

// The walk of the table's check: a cursor, and how many of the records behind it are names.
#[derive(Clone, Copy)]
pub struct TableWalk {
    pub here: Cursor,
    pub names: u16,
}

// A record's front, none where it is malformed or cut, and the walk behind it.
#[derive(Clone, Copy)]
pub struct TableStep {
    pub head: Option<Head>,
    pub next: TableWalk,
}

impl TableWalk {
    // At the table's first record.
    pub fn new() -> TableWalk
        ensures { result ≡ walk_start }
    {
        TableWalk {
            here: Cursor::new(),
            names: 0,
        }
    }

    // The record here, and the walk behind it, which counts that record where it is a name.
    pub fn step(self, t: &[u8]) -> TableStep
        requires { WalkOn t.now self }
        ensures { TableStepIs t.now self result }
    {
        let s = self.here.step(t);
        let name = is_name(s.head);
        TableStep {
            head: s.head,
            next: TableWalk {
                here: s.next,
                names: self.names + u16::from(name),
            },
        }
    }

    // The walk behind a name that stands here and is not malformed, which it counts. A step of its own: a name's length is known, and it needs no front.
    pub fn behind_name(self) -> TableWalk
        requires { (self.names < 65535) × (self.here.index ≤ self.here.at) × (self.here.at ≤ 60000) }
        ensures walk { result ≡ behind_name self }
        ensures counted { (t : List ℕ) → WalkAt t self → NameHere t self.here → WalkAt t result }
    {
        TableWalk {
            here: Cursor {
                at: self.here.at + NAME_BYTES,
                index: self.here.index + 1,
            },
            names: self.names + 1,
        }
    }
}
