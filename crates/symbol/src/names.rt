// The check of a table's names: they stand first and have 26 bytes each, use no id, and hold no type.
ghost use Rattle.std.specs.Prelude.{◌≡◌, ◌≤◌, length, IfOk, MatchResult};
ghost use Rattle.index.specs.Inside.IndexedTable.{IndexRoom};
ghost use Rattle.symbol.specs.Inside.Asked.{NameAsked, NameEntryAsked, fault_at};
ghost use Rattle.symbol.specs.Inside.Checked.{checked_number};
ghost use Rattle.symbol.specs.Inside.Join.{EntryTreeIs, NameEntryIs};
ghost use Rattle.symbol.specs.Inside.NamesChecked.{NamesDone, NameRefused};

use crate::checks::TableFault;
use index::index::{Place, place_at, put, reduced};
use index::tree::{Key, name_at, search};
use record::front::{RecordKind, read_name};
use record::spelling::{is_builtin, name_hash};
use record::walk::{Cursor, TableWalk};
use ty::byte_at;

// The empty entry for the name at me, whose hash is h; none where an earlier name is spelled so.
fn name_entry(t: &[u8], x: &[u16], me: Cursor, h: usize) -> Option<usize>
    requires { NameEntryAsked t.now x.now me h }
    ensures { NameEntryIs t.now x.now me result }
{
    let b = reduced(h, t.len());
    // An empty root, told before any search is called, as that was measured to be faster (docs/history/speed.md).
    if place_at(x, 1 + b).is_none() {
        return Some(1 + b);
    }
    search(t, x, Key::Name(Place { at: me.at }), b).err()
}

// The name at me: the entry that it fills in the index, or why the table is refused.
fn check_name(t: &[u8], x: &[u16], me: Cursor) -> Result<usize, TableFault>
    requires { NameAsked t.now x.now me }
    ensures number { checked_number result ≡ fault_at t.now me }
    ensures entry { IfOk result (λ a. EntryTreeIs t.now x.now me a) }
{
    if read_name(&t[me.at..]).is_none() {
        return Err(TableFault::Malformed);
    }
    let name = name_at(t, me.at);
    let h = name_hash(name);
    if is_builtin(name, h) {
        return Err(TableFault::KeyRepeated);
    }
    name_entry(t, x, me, h).ok_or(TableFault::KeyRepeated)
}

// Checks the names up to the first record of another kind; they come into the index.
pub(crate) fn check_names(t: &[u8], x: &mut [u16]) -> Result<TableWalk, TableFault>
    requires { (length t.now ≤ 60000) × IndexRoom t.now x.old }
    ensures { MatchResult result (λ w. NamesDone t.now x.old x.new w) (λ f. NameRefused t.now x.old x.new f) }
{
    let mut w = TableWalk::new();
    while byte_at(t, w.here.at) == RecordKind::Name.number() {
        let at = check_name(t, x, w.here)?;
        put(x, at, Place { at: w.here.at }.entry());
        w = w.behind_name();
    }
    Ok(w)
}
