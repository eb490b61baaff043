// An image with layers, as far as its layers and interfaces tell: what the layer rules on steps rest on.
ghost use Rattle.std.specs.Prelude.{◌≡◌, true};
ghost use Rattle.image.specs.LayerRules.{parents_below, listed_once, listed_by_own_layer, interfaces_lie};
ghost use Rattle.image.specs.View.{view_of};

use crate::accepted::Judged;

#[derive(Clone, Copy)]
pub struct Layered<'a> {
    pub image: Judged<'a>,
    pub ghost below: { parents_below (view_of image.records.bytes.now image.records.counts) ≡ true },
    pub ghost own: { listed_by_own_layer (view_of image.records.bytes.now image.records.counts) ≡ true },
    pub ghost once: { listed_once (view_of image.records.bytes.now image.records.counts) ≡ true },
    pub ghost lie: { interfaces_lie (view_of image.records.bytes.now image.records.counts) ≡ true },
}
