// Flat, layered, or neither: which stages the interfaces list.
ghost use Rattle.std.specs.Prelude.{◌≡◌, eqb, length};
ghost use Rattle.vir.specs.Ids.{none};
ghost use Rattle.records.specs.Every.{every};
ghost use Rattle.image.specs.Answer.{kind_number};
ghost use Rattle.image.specs.Kind.{kind_of_vir};
ghost use Rattle.image.specs.Viewed.{viewed};
ghost use Rattle.image.specs.Vir.{stage_of};

use crate::accepted::Judged;
use crate::answer::Kind;
use crate::listers::own_all;
use crate::tally::counted;
use records::Records;
use records::record::{InterfaceRecord, StageRecord};
use vir::ids::InterfaceId;

// Whether no stage has a transfer.
pub fn transfers_none(records: &Records) -> bool
    ensures { result ≡ every (length (viewed records.now).stages) (λ t. eqb (stage_of (viewed records.now) t).transfer none) }
{
    for t in 0..records.counts.stages as usize {
        let stage: StageRecord = records.nth(t);
        if stage.transfer != InterfaceId::NONE {
            return false;
        }
    }
    true
}

// The kind of an image; none if it is neither.
pub fn kind(image: &Judged) -> Option<Kind>
    ensures { kind_number result ≡ kind_of_vir (viewed image.now.records) }
{
    let mut counts = [0u8; 256];
    if !own_all::<InterfaceRecord>(image, &mut counts) {
        return None;
    }
    if !counted(&counts, image.records.counts.stages, 2) {
        return None;
    }
    if image.records.counts.layers != 0 {
        return Some(Kind::Layered);
    }
    transfers_none(&image.records).then_some(Kind::Flat)
}
