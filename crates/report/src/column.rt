// The rows: a half byte for each interface and local, even local low. They are written a column at a time, as the locals come.
ghost use Rattle.std.specs.Prelude.{◌+◌, ◌*◌, ◌/◌, ◌≤◌, ◌<◌, length, All};
ghost use Rattle.report.specs.Writing.{Column};
ghost use Rattle.report.specs.Promises.{Halved};

// The half of local l in the row at p. An even local's clears the other half.
fn put_half(out: &mut [u8], p: usize, l: usize, half: u8)
    requires l_in_bounds { p + l / 2 < length out.old }
    requires half_bound { half < 16 }
    ensures { Halved p l half out.old out.new }
{
    let q = p + l / 2;
    if l % 2 == 0 {
        out[q] = half;
    } else {
        out[q] = out[q] % 16 + 16 * half;
    }
}

// Local l in each of the rows, which are so many bytes long.
pub fn column(out: &mut [u8], at: usize, size: usize, l: usize, halves: &[u8])
    requires halves_bound { All (λ h. h < 16) halves.now }
    requires rows_in_bounds { at + size * length halves.now ≤ length out.old }
    requires l_bound { l < 2 * size }
    ensures { Column at size (length halves.now) l halves.now out.old out.new }
{
    for (i, &half) in halves.iter().enumerate() {
        put_half(out, at + size * i, l, half);
    }
}
