// The layer rules of document 01 that look at layers and interfaces alone, and the climb from a layer to those that it lies in.
ghost use Rattle.std.specs.Prelude.{◌≡◌, true, ◌<◌, length};
ghost use Rattle.image.specs.LayerRules.{parents_below, interfaces_lie, lies_within};
ghost use Rattle.image.specs.Viewed.{viewed};

use records::Records;
use records::record::{InterfaceRecord, LayerRecord};
use vir::ids::LayerId;

pub fn parents_below(records: &Records) -> bool
    ensures { result ≡ parents_below (viewed records.now) }
{
    for l in 0..records.counts.layers {
        let layer: LayerRecord = records.nth(l as usize);
        if !((layer.parent == LayerId::NONE) | (layer.parent.0 < l)) {
            return false;
        }
    }
    true
}

pub fn interfaces_lie(records: &Records) -> bool
    ensures { result ≡ interfaces_lie (viewed records.now) }
{
    for i in 0..records.counts.interfaces as usize {
        let interface: InterfaceRecord = records.nth(i);
        if records.counts.layers <= interface.layer.0 {
            return false;
        }
    }
    true
}

// Whether a layer is another or lies in it. Parents fall, so each climb ends.
#[tactic(auto, using(crate::proofs::Climbing::climbing))]
pub fn lies_within(records: &Records, l: LayerId, outer: LayerId) -> bool
    requires l_lt_layers { l.0 < records.now.counts.layers }
    requires below { parents_below (viewed records.now) ≡ true }
    ensures { result ≡ lies_within (viewed records.now) (length (viewed records.now).layers) l.0 outer.0 }
{
    let mut at = l;
    while at != outer {
        let layer: LayerRecord = records.nth(at.0 as usize);
        if layer.parent == LayerId::NONE {
            return false;
        }
        at = layer.parent;
    }
    true
}
