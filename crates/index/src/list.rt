// The lists of functions in the index: one chain for each bucket, in table order.
ghost use Rattle.std.specs.Prelude.{◌≡◌, ◌≤◌, ◌<◌, length};
ghost use Rattle.index.specs.Inside.IndexedTable.{IndexedTable};
ghost use Rattle.index.specs.Inside.Entered.{EntryAsked, link_at, entered};
ghost use Rattle.index.specs.Inside.Index.{list_count};
ghost use Rattle.index.specs.Inside.Searched.{Searched};
ghost use Rattle.record.specs.TableRefused.{table_fault};
ghost use Rattle.index.specs.Inside.ListWalk.{list_start, here_has_key, list_step, list_followed, list_first, list_next, AtListed};

use crate::index::{
    Place, child_at, first_at, has_ids, key_bucket, last_at, list_reduced, place_at, put,
};
use crate::table::Table;
use record::front::RecordKind;

// Where the entry for a function stands that comes into bucket b behind its last function, or as its first. The bucket's bound is asked, as `first_at` asks it.
fn link_at(n: usize, b: usize, last: Option<Place>) -> usize
    requires { b < list_count n }
    ensures { result ≡ link_at n b last }
{
    match last {
        Some(p) => child_at(n, p.at, 0),
        None => first_at(n, b),
    }
}

// A function at p, in bucket b of a table of n bytes, comes into the index.
#[tactic(auto, using(crate::proofs::Chains::link_low), unfolding(crate::specs::Inside::Entered::entered))]
pub fn enter(x: &mut [u16], n: usize, b: usize, p: Place)
    requires { EntryAsked x.old n b p.at }
    ensures { x.new ≡ entered n b p.at x.old }
{
    let at = last_at(n, b);
    let link = link_at(n, b, place_at(x, at));
    put(x, link, p.entry());
    put(x, at, p.entry());
}

// A place in the list of a bucket: the owner and the name that are looked for, and the function here, none at the list's end.
// A cursor that each step hands back, as document 01 has it (docs/DECISIONS.md, "Forms that document 01 names"), and no Iterator.
#[derive(Clone, Copy)]
pub struct ListCursor {
    pub owner: u16,
    pub name: u16,
    pub here: Option<Place>,
}

// The private steps take bytes and index apart: in a clause a Table is its bytes alone, and these clauses name entries of the index.
impl ListCursor {
    // At the first function of the bucket of an owner and a name.
    #[tactic(auto, unfolding(crate::specs::Inside::ListWalk::list_start))]
    fn new(t: &[u8], x: &[u16], owner: u16, name: u16) -> ListCursor
        ensures { result ≡ list_start (length t.now) x.now owner name }
    {
        let n = t.len();
        let b = list_reduced(key_bucket(RecordKind::Function.number(), owner, name), n);
        ListCursor {
            owner,
            name,
            here: place_at(x, first_at(n, b)),
        }
    }

    // The function here.
    pub fn found(self) -> Option<Place>
        ensures { result ≡ self.here }
    {
        self.here
    }

    // The function p here has the owner and the name.
    #[tactic(auto, unfolding(crate::specs::Inside::ListWalk::here_has_key))]
    fn has_key(self, t: &[u8], p: Place) -> bool
        requires { p.at ≤ 60000 }
        ensures { result ≡ here_has_key t.now self p }
    {
        has_ids(
            t,
            p.at,
            RecordKind::Function.number(),
            self.owner,
            self.name,
        )
    }

    // At the next function of the bucket, behind the function p here.
    #[tactic(auto, unfolding(crate::specs::Inside::ListWalk::list_step))]
    fn step(self, t: &[u8], x: &[u16], p: Place) -> ListCursor
        ensures { result ≡ list_step (length t.now) x.now self p }
    {
        ListCursor {
            here: place_at(x, child_at(t.len(), p.at, 0)),
            ..self
        }
    }

    // At the first function with the owner and the name, from here on.
    fn follow(self, t: &[u8], x: &[u16]) -> ListCursor
        requires { IndexedTable t.now x.now × Searched t.now self.here self.owner self.name }
        ensures { result ≡ list_followed t.now self }
    {
        let mut c = self;
        // A `while`: no bound to count to, the next entry stands in the function here.
        while let Some(p) = c.here {
            if c.has_key(t, p) {
                return c;
            }
            c = c.step(t, x, p);
        }
        c
    }

    // At the first function with an owner and a name. `accepted`, here and below: symbol's Functions need it in proofs and call nothing else that says it.
    pub fn first(table: &Table<'_>, owner: u16, name: u16) -> ListCursor
        ensures first { result ≡ list_first table.now owner name }
        ensures accepted { table_fault table.now ≡ 0 }
    {
        let (t, x) = (table.bytes(), table.index());
        ListCursor::new(t, x, owner, name).follow(t, x)
    }

    // At the first function with the owner and the name behind the one here.
    pub fn next(self, table: &Table<'_>) -> ListCursor
        requires { AtListed table.now self }
        ensures next { result ≡ list_next table.now self }
        ensures accepted { table_fault table.now ≡ 0 }
    {
        let (t, x) = (table.bytes(), table.index());
        match self.here {
            Some(p) => self.step(t, x, p).follow(t, x),
            None => self,
        }
    }
}
