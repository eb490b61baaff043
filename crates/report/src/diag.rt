// The diagnostics. All of them go through `say`, which counts them and keeps the first 1,024.
ghost use Rattle.std.specs.Prelude.{◌≡◌, [], ◌∷◌, ◌+◌, ◌*◌, ◌≤◌, ◌<◌, length};
ghost use Rattle.report.specs.Report.{diag_bytes};
ghost use Rattle.report.specs.Writing.{Laid};
ghost use Rattle.report.specs.Promises.{to_diag, Saying};

use crate::bytes::put;
use vir::ids::{Local, Span, Type};

// How many are kept, at most.
pub const MOST: u32 = 1024;

// How many bytes each has.
pub const SIZE: usize = 9;

// Kind: 1 InfiniteLoop, 2 CannotDrop, 3 UninitializedVariable, 4 CannotFork, 5 ValueLaterUsedHere. (A number, since `say` promises what it
// lays for each: an enum would ask more of whoever calls it.)
#[derive(Clone, Copy)]
pub struct Diag {
    pub kind: u8,
    pub span: Span,
    pub ty: Type,
    pub local: Local,
}

impl Diag {
    fn put(self, out: &mut [u8], p: usize)
        requires { p + SIZE ≤ length out.old }
        ensures { Laid p (diag_bytes (to_diag self)) out.old out.new }
    {
        put(out, p, &[self.kind]);
        put(out, p + 1, &self.span.0.to_le_bytes());
        put(out, p + 5, &self.ty.0.to_le_bytes());
        put(out, p + 7, &self.local.0.to_le_bytes());
    }
}

// Where a report's diagnostics begin, and how many were said so far.
#[derive(Clone, Copy, Debug, PartialEq, Eq)]
pub struct Diags {
    pub at: usize,
    pub said: u32,
}

impl Diags {
    // One more, behind those that were said.
    pub fn say(&mut self, out: &mut [u8], d: Diag)
        requires room { self.old.at + SIZE * MOST ≤ length out.old }
        requires said_bound { self.old.said < 4294967295 }
        ensures at { self.new.at ≡ self.old.at }
        ensures said { Saying self.old.at self.old.said (to_diag d ∷ []) out.old out.new self.new.said }
    {
        if self.said < MOST {
            d.put(out, self.at + SIZE * self.said as usize);
        }
        self.said += 1;
    }
}
