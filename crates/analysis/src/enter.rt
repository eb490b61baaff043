// `new_relation`'s lists of dependents, once for all locals.
ghost use Rattle.std.specs.Prelude.{◌*◌, ◌≤◌, ◌<◌, length};
ghost use Rattle.solve.specs.Least.{AllInside};
ghost use Rattle.solve.specs.Tables.{relations_of, Entered};

use building::built::Built;
use solve::Relation;
use solve::dependents::dependents;

pub fn enter(relations: &[Relation], z: Built, starts: &mut [u16], entries: &mut [u16])
    requires relations_in_bounds { (z.relations ≤ length relations.now) × (z.vars < length starts.old) × (3 * z.relations ≤ length entries.old) × (length entries.old ≤ 65535) }
    requires all_inside { AllInside z.vars (relations_of relations.now z.relations) }
    ensures { Entered (relations_of relations.now z.relations) z.vars relations.now starts.new entries.new }
{
    let held = z.relations as usize;
    let n = z.vars as usize + 1;
    let used = &mut starts[..n];
    dependents(&relations[..held], used, entries)
}
