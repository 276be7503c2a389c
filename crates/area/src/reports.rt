// The diagnostics that were reported, in a lent buffer.
ghost use Rattle.std.specs.Prelude.{◌≡◌, ◌<◌, [], ◌∷◌};
ghost use Rattle.area.specs.Diagnostic.{count_limit};
ghost use Rattle.area.specs.Reported.{reported};

use written::put_two;

// A lent buffer, and how many diagnostics were reported: those that fit wholly stand in it, one behind another.
//
// It has no Model: that would hide which buffer is lent. So each function that reports asks `count < count_limit`: how many there can be goes by the number of
// nodes, which Reports does not know.
#[derive(Drop)]
pub struct Reports<'a> {
    pub buf: &'a mut [u8],
    pub count: usize,
}

impl<'a> Reports<'a> {
    // Reports one more diagnostic, of the kind that a byte stands for: each byte, as before there was a DiagnosticKind. The number 0 stands for none, as in the
    // record (docs/FORMAT.md).
    #[tactic(auto, using(crate::proofs::Reporting::reported_one), unfolding(ty::specs::Choose::choose))]
    pub fn report(&mut self, kind: u8, node: usize, number: usize)
        requires { self.old.count < count_limit }
        ensures { self.new ≡ reported self.old (record { kind = kind; node = node; number = number } ∷ []) }
    {
        let p = 5 * self.count;
        self.count += 1;
        if self.buf.len() < p + 5 {
            return;
        }
        self.buf[p] = kind;
        put_two(node, self.buf, p + 1);
        put_two(number, self.buf, p + 3);
    }
}
