// The head, and behind it how often each interface is come to.
ghost use Rattle.std.specs.Prelude.{◌≡◌, ◌+◌, ◌*◌, ◌≤◌, min, length};
ghost use Rattle.image.specs.Encode.{u32_bytes};
ghost use Rattle.image.specs.Kind.{concat};
ghost use Rattle.report.specs.Report.{most};
ghost use Rattle.report.specs.Writing.{Laid};
ghost use Rattle.report.specs.Promises.{verdict_of, Headed};

use crate::bytes::put;
use crate::diag::MOST;

const VERSION: u16 = 1;

// How often each interface is come to.
pub fn incoming(out: &mut [u8], at: usize, counts: &[u32])
    requires { at + 4 * length counts.now ≤ length out.old }
    ensures { Laid at (concat u32_bytes counts.now) out.old out.new }
{
    for (i, &n) in counts.iter().enumerate() {
        put(out, at + 4 * i, &n.to_le_bytes());
    }
}

// A report's numbers. `total` counts all diagnostics, those that are not kept too.
#[derive(Clone, Copy, Debug, PartialEq, Eq)]
pub struct Head {
    pub interfaces: u16,
    pub locals: u16,
    pub takes: u32,
    pub evaluations: u32,
    pub total: u32,
}

impl Head {
    // 0 clean, 1 otherwise.
    fn verdict(self) -> u8
        ensures { result ≡ verdict_of self.total }
    {
        u8::from(self.total != 0)
    }

    fn kept(self) -> u16
        ensures { result ≡ min self.total most }
    {
        self.total.min(MOST) as u16
    }

    pub fn put(self, out: &mut [u8])
        requires { 24 ≤ length out.old }
        ensures { Headed self.interfaces self.locals self.takes self.evaluations self.total out.old out.new }
    {
        put(out, 0, b"VAR");
        put(out, 3, &VERSION.to_le_bytes());
        put(out, 5, &self.interfaces.to_le_bytes());
        put(out, 7, &self.locals.to_le_bytes());
        put(out, 9, &[self.verdict()]);
        put(out, 10, &self.takes.to_le_bytes());
        put(out, 14, &self.evaluations.to_le_bytes());
        put(out, 18, &self.total.to_le_bytes());
        put(out, 22, &self.kept().to_le_bytes());
    }
}
