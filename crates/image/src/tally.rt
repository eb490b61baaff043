// Stages that a list names: each is counted, and has its owner in a field of its own.
ghost use Rattle.std.specs.Prelude.{◌≡◌, ℕ, ◌+◌, ◌*◌, ◌≤◌, ◌<◌, get_or, set};
ghost use Rattle.vir.specs.Ids.{none};
ghost use Rattle.records.specs.Bytes.{u16_at};
ghost use Rattle.records.specs.Every.{every};
ghost use Rattle.image.specs.Kind.{all, present};
ghost use Rattle.records.specs.Layout.{refs_at};
ghost use Rattle.image.specs.Tally.{bump, tally, tally_entry, owns, field_is, owner_is, counted_at};
ghost use Rattle.image.specs.View.{refs_from};

use records::Records;
use records::bytes::u16_at;
use records::layout::STAGE;
use records::record::Run;
use vir::ids::{InterfaceId, LayerId, NONE};

pub fn bump(n: u8) -> u8
    ensures { result ≡ bump n }
{
    if n < 2 { n + 1 } else { n }
}

// Who lists a stage.
#[derive(Clone, Copy, Debug, PartialEq, Eq)]
pub enum Owner {
    Interface(InterfaceId),
    Layer(LayerId),
}

// Where a stage's record names its interface, and its layer.
const INTERFACE_FIELD: usize = 4;

const LAYER_FIELD: usize = 6;

// The stage t counted, and whether its field at f names its owner.
fn tally_stage(records: &Records, f: usize, owner: u16, t: u16, counts: &mut [u8; 256]) -> bool
    requires f_bound { f ≤ 28 }
    requires t_lt_stages { t < records.now.counts.stages }
    ensures { (result ≡ field_is records.now.bytes.now records.now.counts f owner t)
        × (counts.new ≡ set counts.old t (bump (get_or counts.old t 0))) }
{
    let i = t as usize;
    counts[i] = bump(counts[i]);
    u16_at(records.bytes, records.counts.stages_at() + STAGE * i + f) == owner
}

// An entry that may be none; `ok` is what the entries before it came to.
fn tally_entry(
    records: &Records,
    f: usize,
    owner: u16,
    e: u16,
    ok: bool,
    counts: &mut [u8; 256],
) -> bool
    requires f_bound { f ≤ 28 }
    requires e_lt_stages { (e ≡ none → ⊥) → e < records.now.counts.stages }
    ensures { (result ≡ owns (field_is records.now.bytes.now records.now.counts f owner) e ok)
        × (counts.new ≡ tally_entry e counts.old) }
{
    if e == NONE {
        return ok;
    }
    ok & tally_stage(records, f, owner, e, counts)
}

// The entries of a list of refs: each is counted, and is to have its owner in the field at f.
pub fn tally_run(records: &Records, run: Run, f: usize, owner: u16, counts: &mut [u8; 256]) -> bool
    requires f_bound { f ≤ 28 }
    requires fits { run.first + run.count ≤ records.now.counts.refs }
    requires named { (k : ℕ) → run.first ≤ k → k < run.first + run.count → (u16_at records.now.bytes.now (refs_at records.now.counts + 2 * k) ≡ none → ⊥)
        → u16_at records.now.bytes.now (refs_at records.now.counts + 2 * k) < records.now.counts.stages }
    ensures { (result ≡ all (field_is records.now.bytes.now records.now.counts f owner) (present (refs_from records.now.bytes.now records.now.counts run)))
        × (counts.new ≡ tally (present (refs_from records.now.bytes.now records.now.counts run)) counts.old) }
{
    let mut ok = true;
    for k in run.start()..run.end() {
        ok = tally_entry(records, f, owner, records.reference(k), ok, counts);
    }
    ok
}

// The same by who lists them.
pub fn tally_listed(records: &Records, run: Run, owner: Owner, counts: &mut [u8; 256]) -> bool
    requires fits { run.first + run.count ≤ records.now.counts.refs }
    requires named { (k : ℕ) → run.first ≤ k → k < run.first + run.count → (u16_at records.now.bytes.now (refs_at records.now.counts + 2 * k) ≡ none → ⊥)
        → u16_at records.now.bytes.now (refs_at records.now.counts + 2 * k) < records.now.counts.stages }
    ensures { (result ≡ all (owner_is records.now.bytes.now records.now.counts owner) (present (refs_from records.now.bytes.now records.now.counts run)))
        × (counts.new ≡ tally (present (refs_from records.now.bytes.now records.now.counts run)) counts.old) }
{
    match owner {
        Owner::Interface(i) => tally_run(records, run, INTERFACE_FIELD, i.0, counts),
        Owner::Layer(l) => tally_run(records, run, LAYER_FIELD, l.0, counts),
    }
}

// Whether each of the first n was counted at least once, and at most so often: many are tested at a time.
pub fn counted(counts: &[u8; 256], n: u16, most: u8) -> bool
    requires { n ≤ 256 }
    ensures { result ≡ every n (counted_at counts.now most) }
{
    let mut ok = true;
    for i in 0..n as usize {
        let k = counts[i];
        ok = ok & ((1 <= k) & (k <= most));
    }
    ok
}
