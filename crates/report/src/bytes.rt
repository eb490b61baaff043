// Bytes laid at a place.
ghost use Rattle.std.specs.Prelude.{◌+◌, ◌≤◌, length};
ghost use Rattle.report.specs.Writing.{Laid};

pub fn put(out: &mut [u8], p: usize, bytes: &[u8])
    requires { p + length bytes.now ≤ length out.old }
    ensures { Laid p bytes.now out.old out.new }
{
    out[p..p + bytes.len()].copy_from_slice(bytes);
}
