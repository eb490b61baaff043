// `set_wires`, on the variables that there are.
ghost use Rattle.std.specs.Prelude.{◌*◌, ◌≤◌, ◌<◌, length, take};
ghost use Rattle.wires.specs.Crossing.{Crossed};

use building::built::Built;
use records::layout::Counts;
use wires::set_wires;

pub fn cross(
    c: Counts,
    z: Built,
    incoming: &[u32],
    inv: bool,
    fork: bool,
    effects: &[u8],
    wires: &mut [u8],
) -> bool
    requires interfaces_in_bounds { (c.interfaces ≤ length incoming.now) × (c.interfaces ≤ length wires.old) }
    requires interfaces_bound { (2 * c.interfaces < z.vars) × (z.vars ≤ length effects.now) }
    ensures { Crossed c.interfaces incoming.now inv fork (take z.vars effects.now) wires.new result }
{
    let found = &effects[..z.vars as usize];
    set_wires(c.interfaces as usize, incoming, inv, fork, found, wires)
}
