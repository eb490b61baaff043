// The layer rules of document 01 that look at steps: Transfers enter layers from their parents, and Diverges name layers around them.
ghost use Rattle.std.specs.Prelude.{◌≡◌, true, [], ◌∷◌, ◌&&◌, ◌||◌, ◌+◌, ◌≤◌, ◌<◌, eqb, is_some, IfSome, length, get_or, set};
ghost use Rattle.vir.specs.Ids.{none};
ghost use Rattle.image.specs.Entering.{action_at, actions_of, enters_of, diverges_of, enterable, lies_in};
ghost use Rattle.records.specs.declared.layout.Section.TheVariants.{Steps};
ghost use Rattle.records.specs.Every.{every};
ghost use Rattle.records.specs.Layout.{place_of};
ghost use Rattle.image.specs.Kind.{all, concat};
ghost use Rattle.image.specs.LayerRules.{entries, targets, entered_from_parent, diverges_out};
ghost use Rattle.image.specs.Tally.{bump, tally};
ghost use Rattle.image.specs.View.{step_in};
ghost use Rattle.image.specs.Viewed.{viewed};
ghost use Rattle.image.specs.Vir.{interface_of, layer_of, stage_of};

use crate::layer_rules::lies_within;
use crate::layered::Layered;
use crate::tally::bump;
use records::Records;
use records::layout::STEP;
use records::record::{InterfaceRecord, LayerRecord, Record, Run, StageRecord, StepRecord};
use vir::ids::{InterfaceId, LayerId};
use vir::step::Step;

// The step k, which stands at p; nothing if its tag names none, which is so in no accepted image. (k is for the promise alone.)
fn step(records: &Records, k: usize, p: usize) -> Option<Step>
    requires in_bounds { k < records.now.counts.steps }
    requires stands { p ≡ place_of records.now.counts Steps k }
    ensures { step_in result ≡ (action_at records.now.bytes.now records.now.counts k).step }
{
    let record = StepRecord::read(records.bytes, p);
    Step::from_fields(record.tag, record.a, record.b)
}

// The layer m is entered from l.
#[tactic(auto, using(crate::proofs::Fields::parent_read))]
fn enter(records: &Records, l: LayerId, m: LayerId, counts: &mut [u8; 256]) -> bool
    requires { m.0 < records.now.counts.layers }
    ensures { (result ≡ enterable (viewed records.now) l.0 m.0)
        × (counts.new ≡ set counts.old m.0 (bump (get_or counts.old m.0 0))) }
{
    let i = m.0 as usize;
    counts[i] = bump(counts[i]);
    let layer: LayerRecord = records.nth(i);
    (layer.parent == LayerId::NONE) | (layer.parent == l)
}

// The interface i, which a step of the layer l goes on to: its layer is entered from l.
#[tactic(auto, using(crate::proofs::Entered::entering), unfolding(crate::specs::Tally::tally))]
fn enter_step(layered: &Layered, l: LayerId, i: InterfaceId, counts: &mut [u8; 256]) -> bool
    requires { i.0 < layered.now.image.records.counts.interfaces }
    ensures { (result ≡ enterable (viewed layered.now.image.records) l.0 (interface_of (viewed layered.now.image.records) i.0).layer)
        × (counts.new ≡ tally ((interface_of (viewed layered.now.image.records) i.0).layer ∷ []) counts.old) }
{
    let records = &layered.image.records;
    let to: InterfaceRecord = records.nth(i.0 as usize);
    enter(records, l, to.layer, counts)
}

// A step of the layer l jumps to m, which is l or a layer around it. `known` is a layer that l is or lies in, the last that a Diverge named: jumps
// to the same layer climb once. Nothing is known any more once one named another.
fn diverge_step(
    layered: &Layered,
    l: LayerId,
    m: LayerId,
    known: Option<LayerId>,
) -> Option<LayerId>
    requires l_lt_layers { l.0 < layered.now.image.records.counts.layers }
    requires known_value { IfSome known (λ m. lies_in (viewed layered.now.image.records) l.0 m.0 ≡ true) }
    ensures { (is_some result ≡ (is_some known && lies_in (viewed layered.now.image.records) l.0 m.0))
        × IfSome result (λ m. lies_in (viewed layered.now.image.records) l.0 m.0 ≡ true) }
{
    let last = known?;
    ((m == last) || lies_within(&layered.image.records, l, m)).then_some(m)
}

// The step k, which stands at p and in the layer l: whether it enters no layer but from its parent, and what is known of jumps behind it.
#[tactic(auto, using(crate::proofs::Entered::entering), unfolding(crate::specs::Kind::all, crate::specs::Kind::concat, crate::specs::Tally::tally))]
fn jump_step(
    layered: &Layered,
    l: LayerId,
    k: usize,
    p: usize,
    known: Option<LayerId>,
    counts: &mut [u8; 256],
) -> (bool, Option<LayerId>)
    requires l_lt_layers { l.0 < layered.now.image.records.counts.layers }
    requires k_lt_steps { k < layered.now.image.records.counts.steps }
    requires stands { p ≡ place_of layered.now.image.records.counts Steps k }
    requires known_value { IfSome known (λ m. lies_in (viewed layered.now.image.records) l.0 m.0 ≡ true) }
    ensures entered { (result.0 ≡ all (enterable (viewed layered.now.image.records) l.0) (enters_of (viewed layered.now.image.records) (action_at layered.now.image.records.bytes.now layered.now.image.records.counts k)))
        × (counts.new ≡ tally (enters_of (viewed layered.now.image.records) (action_at layered.now.image.records.bytes.now layered.now.image.records.counts k)) counts.old) }
    ensures out { (is_some result.1 ≡ (is_some known && all (lies_in (viewed layered.now.image.records) l.0) (diverges_of (action_at layered.now.image.records.bytes.now layered.now.image.records.counts k))))
        × IfSome result.1 (λ m. lies_in (viewed layered.now.image.records) l.0 m.0 ≡ true) }
{
    match step(&layered.image.records, k, p) {
        Some(Step::Transfer(i)) => (enter_step(layered, l, i, counts), known),
        Some(Step::Diverge(m, _)) => (true, diverge_step(layered, l, m, known)),
        _ => (true, known),
    }
}

// What the Transfers and the Diverges so far came to.
#[derive(Clone, Copy, Debug, PartialEq, Eq)]
pub struct Jumps {
    pub entered: bool,
    pub out: bool,
}

// The steps of a list, which stands in the layer l.
fn jump_run(layered: &Layered, l: LayerId, run: Run, counts: &mut [u8; 256]) -> Jumps
    requires l_lt_layers { l.0 < layered.now.image.records.counts.layers }
    requires fits { run.first + run.count ≤ layered.now.image.records.counts.steps }
    ensures { (result.entered ≡ all (enterable (viewed layered.now.image.records) l.0)
        (concat (enters_of (viewed layered.now.image.records)) (actions_of layered.now.image.records.bytes.now layered.now.image.records.counts run)))
        × (counts.new ≡ tally (concat (enters_of (viewed layered.now.image.records)) (actions_of layered.now.image.records.bytes.now layered.now.image.records.counts run)) counts.old)
        × (result.out ≡ all (lies_in (viewed layered.now.image.records) l.0) (concat diverges_of (actions_of layered.now.image.records.bytes.now layered.now.image.records.counts run))) }
{
    let mut entered = true;
    let mut known = Some(l);
    let mut p = layered.image.records.counts.steps_at() + STEP * run.start();
    for k in run.start()..run.end() {
        let (enters, next) = jump_step(layered, l, k, p, known, counts);
        entered &= enters;
        known = next;
        p += STEP;
    }
    Jumps {
        entered,
        out: known.is_some(),
    }
}

#[tactic(auto, using(crate::proofs::Diverging::standing))]
fn jump_stage(layered: &Layered, t: usize, counts: &mut [u8; 256]) -> Jumps
    requires { t < layered.now.image.records.counts.stages }
    ensures { (result.entered ≡ all (enterable (viewed layered.now.image.records) (stage_of (viewed layered.now.image.records) t).layer)
        (entries (viewed layered.now.image.records) (stage_of (viewed layered.now.image.records) t)))
        × (counts.new ≡ tally (entries (viewed layered.now.image.records) (stage_of (viewed layered.now.image.records) t)) counts.old)
        × (result.out ≡ all (lies_in (viewed layered.now.image.records) (stage_of (viewed layered.now.image.records) t).layer)
        (targets (stage_of (viewed layered.now.image.records) t))) }
{
    let stage: StageRecord = layered.image.records.nth(t);
    jump_run(layered, stage.layer, stage.steps, counts)
}

// Whether each layer with a parent is entered from it alone, and whether each Diverge names its own layer or one around it; how often each
// layer is entered is counted.
pub fn jump_all(layered: &Layered, counts: &mut [u8; 256]) -> Jumps
    ensures { (result.entered ≡ entered_from_parent (viewed layered.now.image.records))
        × (counts.new ≡ tally (concat (entries (viewed layered.now.image.records)) (viewed layered.now.image.records).stages) counts.old)
        × (result.out ≡ diverges_out (viewed layered.now.image.records)) }
{
    let mut entered = true;
    let mut out = true;
    for t in 0..layered.image.records.counts.stages as usize {
        let jumps = jump_stage(layered, t, counts);
        entered &= jumps.entered;
        out &= jumps.out;
    }
    Jumps { entered, out }
}

// Whether every layer with a parent was counted once.
pub fn entered_once(records: &Records, counts: &[u8; 256]) -> bool
    ensures { result ≡ every (length (viewed records.now).layers)
        (λ l. eqb (layer_of (viewed records.now) l).parent none || eqb (get_or counts.now l 0) 1) }
{
    for l in 0..records.counts.layers as usize {
        let layer: LayerRecord = records.nth(l);
        let n = counts[l];
        if !((layer.parent == LayerId::NONE) | (n == 1)) {
            return false;
        }
    }
    true
}
