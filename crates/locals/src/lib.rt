// analyzer.rs: `local_declarations`. The Rust gathers the stages that declare each local; here a stage is asked when it is come by.
#![tactic(auto)]

ghost use Rattle.std.specs.Prelude.{◌≡◌, ◌<◌, ◌≤◌, length, take};
ghost use Rattle.image.specs.View.{view};
ghost use Rattle.image.specs.Vir.{stage_of};
ghost use Rattle.analyzer.specs.Analyze.{declared, processed};
ghost use Rattle.analyzer.specs.Fill.{contains};
ghost use Rattle.locals.specs.Declared.{declared_in};

use image::accepted::Image;
use reading::{local, reference, stage};
use vir::ids::{Local, StageId};

// Whether a stage declares a local.
pub fn declares(image: &Image, t: StageId, l: Local) -> bool
    requires t_lt_stages { t.0 < image.now.records.counts.stages }
    ensures { result ≡ contains (stage_of (view image.now.records.bytes.now) t.0).declarations l.0 }
{
    let list = stage(image, t).declarations;
    (list.first..list.first + list.count).any(|k| reference(image, k) == l.0)
}

// Whether it does, and its interface is come to.
#[tactic(auto, using(crate::proofs::Searching::counted))]
fn declared_in(image: &Image, incoming: &[u32], t: StageId, l: Local) -> bool
    requires t_lt_stages { t.0 < image.now.records.counts.stages }
    requires interfaces_in_bounds { image.now.records.counts.interfaces ≤ length incoming.now }
    ensures { result ≡ declared_in (take image.now.records.counts.interfaces incoming.now) l.0 (stage_of (view image.now.records.bytes.now) t.0) }
{
    incoming[stage(image, t).interface.0 as usize] != 0 && declares(image, t, l)
}

fn declared(image: &Image, incoming: &[u32], l: Local) -> bool
    requires interfaces_in_bounds { image.now.records.counts.interfaces ≤ length incoming.now }
    ensures { result ≡ declared (take image.now.records.counts.interfaces incoming.now) l.0 (view image.now.records.bytes.now).stages }
{
    (0..image.records.counts.stages).any(|t| declared_in(image, incoming, StageId(t), l))
}

// `process_local` is called for a local that is declared where it can be come to, and goes on if the local is not self_inverse.
pub fn processed(image: &Image, incoming: &[u32], l: Local) -> bool
    requires l_lt_locals { l.0 < image.now.records.counts.locals }
    requires interfaces_in_bounds { image.now.records.counts.interfaces ≤ length incoming.now }
    ensures { result ≡ processed (view image.now.records.bytes.now) (take image.now.records.counts.interfaces incoming.now) l.0 }
{
    let info = local(image, l);
    declared(image, incoming, l) & (info.flags / 8 % 2 != 1)
}
