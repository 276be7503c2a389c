// Reading the types of a record, and the parameters of a function record.
ghost use Rattle.std.specs.Prelude.{◌≡◌, ◌≤◌, ◌<◌, length, get_or, drop};
ghost use Rattle.ty.specs.Read.{read_type, longest_type};
ghost use Rattle.record.specs.RecordKind.{record_kind_number};
ghost use Rattle.record.specs.Inside.Front.{front_at, run_of, reading_answer, answered_run, unread, name_passed, type_passed, param_step, stepped};
ghost use Rattle.record.specs.Inside.Front.{first_reading, params_read, typed_answer, function_head};

use crate::front::{Head, LONGEST, RecordKind, or_none};
use ty::read::read_type;
use ty::{TypeFault, byte_at, id_at};

// The result and the parameters read so far: the bytes passed, the highest id (0 for none, as in a Head), whether a name was repeated, whether Error was met,
// how many parameters there are, and their names. An array with its count: a Reading is Copy and goes on by value, which an ArrayVec is not.
#[derive(Clone, Copy)]
pub struct Reading {
    pub len: usize,
    pub top: u16,
    pub repeated: bool,
    pub error: bool,
    pub count: usize,
    pub names: [u16; 16],
}

// How a reading ends early.
#[derive(Clone, Copy)]
pub enum Ending {
    // Malformed or cut: what was read before stands.
    Broken = 1,
    // A type without end: its parameter's name and the ids that were examined count.
    Endless,
}

// A reading that ended early, as it stands then, with the byte of its ending.
#[derive(Clone, Copy)]
pub struct ReadFault {
    pub read: Reading,
    pub state: u8,
}

// Inlined: a Reading has 32 bytes of names, which each call would copy.
impl Reading {
    // Before a type, in a record whose owner and name have the highest id.
    #[inline(always)]
    pub fn new(high: u16) -> Reading
        ensures { run_of result ≡ unread high }
    {
        Reading {
            len: 0,
            top: high,
            repeated: false,
            error: false,
            count: 0,
            names: [0u16; 16],
        }
    }

    // It ends here, as what follows is malformed or cut.
    #[inline(always)]
    fn broken(self) -> ReadFault
        ensures { result ≡ record { read = self; state = 1 } }
    {
        ReadFault {
            read: self,
            state: Ending::Broken as u8,
        }
    }

    // Behind the type at byte `at`.
    #[tactic(auto, unfolding(crate::specs::Inside::Front::reading_answer, ty::specs::Choose::choose))]
    #[inline(always)]
    pub fn typed(self, s: &[u8], at: usize) -> Result<Reading, ReadFault>
        requires { at ≤ length s.now }
        ensures { result ≡ reading_answer (type_passed (run_of self) at (read_type (drop at s.now) longest_type)) }
    {
        match read_type(&s[at..], LONGEST) {
            Ok(found) => Ok(Reading {
                len: at + found.len,
                top: self.top.max(found.top),
                error: self.error | found.error,
                ..self
            }),
            Err(TypeFault::Endless { top, error: _ }) => Err(ReadFault {
                read: Reading {
                    top: self.top.max(top),
                    error: true,
                    ..self
                },
                state: Ending::Endless as u8,
            }),
            Err(TypeFault::Cut | TypeFault::Malformed) => Err(self.broken()),
        }
    }

    // One parameter's name more.
    #[inline(always)]
    fn named(self, id: u16) -> Reading
        requires { self.count < 16 }
        ensures { run_of result ≡ name_passed (run_of self) id }
    {
        let count = self.count;
        let mut names = self.names;
        let repeated = self.repeated | names[..count].contains(&id);
        names[count] = id;
        Reading {
            top: self.top.max(id),
            repeated,
            count: count + 1,
            names,
            ..self
        }
    }

    // One parameter further. A parameter whose type is malformed or cut is not among what was read.
    #[inline(always)]
    fn next_param(self, s: &[u8]) -> Result<Reading, ReadFault>
        requires { (self.len ≤ length s.now) × (self.count < 16) }
        ensures { result ≡ reading_answer (param_step s.now (run_of self)) }
    {
        let at = self.len;
        if s.len() - at < 3 {
            return Err(self.broken());
        }
        if 3 < byte_at(s, at + 2) {
            return Err(self.broken());
        }
        match self.named(id_at(s, at)).typed(s, at + 3) {
            Ok(read) => Ok(read),
            Err(f) => {
                if f.state == Ending::Endless as u8 {
                    return Err(f);
                }
                Err(self.broken())
            }
        }
    }

    // One parameter further; a reading that ended stays as it is, whatever its state is.
    #[tactic(auto, unfolding(crate::specs::Inside::Front::stepped))]
    #[inline(always)]
    pub fn step(read: Result<Reading, ReadFault>, s: &[u8]) -> Result<Reading, ReadFault>
        requires { ((answered_run read).len ≤ length s.now) × ((answered_run read).count < 16) }
        ensures { result ≡ stepped s.now read }
    {
        match read {
            Ok(c) => c.next_param(s),
            Err(_) => read,
        }
    }
}

fn read_params(s: &[u8], count: usize) -> Result<Reading, ReadFault>
    requires { (8 ≤ length s.now) × (count ≤ 16) × (count ≡ get_or s.now 7 0) }
    ensures { result ≡ reading_answer (params_read s.now) }
{
    let high = or_none(id_at(s, 1)).max(id_at(s, 3));
    let start = Reading {
        len: 8,
        ..Reading::new(high)
    };
    let mut c = start.typed(s, 8)?;
    for _n in 0..count {
        c = Reading::step(Ok(c), s)?;
    }
    Ok(c)
}

// A record whose types were read so.
#[tactic(auto, unfolding(ty::specs::Choose::choose))]
#[inline(always)]
pub fn typed_record(s: &[u8], kind: RecordKind, read: Result<Reading, ReadFault>) -> Option<Head>
    ensures { front_at s.now result ≡ typed_answer s.now (record_kind_number kind) read }
{
    match read {
        Ok(c) => Some(Head {
            kind,
            one: id_at(s, 1),
            two: id_at(s, 3),
            len: c.len,
            top: c.top,
            repeated: c.repeated,
            error: c.error,
        }),
        Err(f) => {
            if f.state != Ending::Endless as u8 {
                return None;
            }
            Some(Head {
                kind,
                one: id_at(s, 1),
                two: id_at(s, 3),
                len: s.len(),
                top: f.read.top,
                repeated: f.read.repeated,
                error: true,
            })
        }
    }
}

#[tactic(auto, using(crate::proofs::ParamSteps::answer_read), unfolding(crate::specs::Inside::Front::function_head, ty::specs::Choose::choose))]
pub fn read_function_head(s: &[u8]) -> Option<Head>
    ensures { front_at s.now result ≡ function_head s.now }
{
    if s.len() < 8 {
        return None;
    }
    if 3 < byte_at(s, 5) {
        return None;
    }
    if 1 < byte_at(s, 6) {
        return None;
    }
    let count = byte_at(s, 7);
    if 16 < count {
        return None;
    }
    typed_record(s, RecordKind::Function, read_params(s, count as usize))
}
