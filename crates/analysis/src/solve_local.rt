// The first half of `process_local`: the effects of one local, from its seeds to the end of the worklist.
ghost use Rattle.std.specs.Prelude.{◌*◌, ◌≤◌, length};
ghost use Rattle.image.specs.View.{view};
ghost use Rattle.analysis.specs.Solving.{Solvable, SolvedFor};

use building::built::{Built, Seeds};
use building::fill::fill_segments;
use image::accepted::Image;
use solve::{Relations, Solved, fixed_point};
use vir::ids::Local;

pub fn solve_local(
    image: &Image,
    l: Local,
    inv: bool,
    z: Built,
    relations: Relations,
    seeds: Seeds,
    effects: &mut [u8],
    stack: &mut [u16],
) -> Solved
    requires solvable { Solvable (view image.now.records.bytes.now) image.now.records.counts z relations.rows.now relations.starts.now relations.entries.now seeds.base.now seeds.touches.now seeds.disconnects.now }
    requires vars_in_bounds { (z.vars ≤ length effects.old) × (4 * z.vars ≤ length stack.old) }
    ensures { SolvedFor (view image.now.records.bytes.now) l.0 inv z.vars effects.new result }
{
    fill_segments(image, l, inv, z, seeds, effects);
    let filled = &mut effects[..z.vars as usize];
    fixed_point(inv, relations, z.relations as usize, filled, stack)
}
