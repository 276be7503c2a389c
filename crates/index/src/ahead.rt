// The classes ahead: for each id the last class record from a record on.
ghost use Rattle.std.specs.Prelude.{◌≡◌, ◌≤◌, ◌<◌, ltb, length, get_or, List, ℕ};
ghost use Rattle.index.specs.Inside.Ahead.{marked, marked_from};
ghost use Rattle.record.specs.Inside.Front.{front_at};
ghost use Rattle.record.specs.Inside.Walk.{CursorAt};

use crate::index::{Place, entry_at, put};
use record::front::{Head, RecordKind};
use record::walk::Cursor;

// The record at p comes into the entries if it is a class whose id has one.
fn mark(late: &mut [u16], head: Option<Head>, p: Place)
    requires { p.at < 65535 }
    ensures { (s : List ℕ) → late.new ≡ marked (front_at s head).kind (front_at s head).one p.at late.old }
{
    let Some(h) = head else {
        return;
    };
    if h.kind != RecordKind::Class {
        return;
    }
    let i = h.one as usize;
    if late.len() <= i {
        return;
    }
    put(late, i, p.entry());
}

// The records from me on come into the entries, so that each id has its last class record. The entries are those of the ids below their number.
// The clause ties the cursor to the table's bytes: this runs while the table is checked, before there is a Table.
pub fn look_ahead(t: &[u8], me: Cursor, late: &mut [u16])
    requires { CursorAt t.now me × (length t.now ≤ 60000) }
    ensures { late.new ≡ marked_from t.now me.at late.old }
{
    let mut c = me;
    // A `while`: no bound to count to, a record says where the next begins.
    while c.at < t.len() {
        let s = c.step(t);
        mark(late, s.head, Place { at: c.at });
        c = s.next;
    }
}

// The class id has a record at byte p or behind it, by the entries.
pub fn class_ahead(late: &[u16], p: usize, id: u16) -> bool
    ensures { result ≡ ltb p (get_or late.now id 0) }
{
    p < entry_at(late, id as usize)
}
