// The stages that the interfaces list, and those that the layers do.
ghost use Rattle.std.specs.Prelude.{◌≡◌, List, ℕ, ◌<◌, eqb, Option, Some};
ghost use Rattle.std.proofs.Common.{refl};
ghost use Rattle.records.specs.declared.record.Run.{Run};
ghost use Rattle.records.specs.Layout.{count_of};
ghost use Rattle.image.specs.Kind.{all};
ghost use Rattle.image.specs.Listing.{Lister, ByInterface, ByLayer, section_of, owner_of, stages_listed, list_at, listed_by, all_listed, number_in, all_own};
ghost use Rattle.image.specs.Tally.{tally};
ghost use Rattle.image.specs.Viewed.{viewed};
ghost use Rattle.image.specs.Vir.{stage_of};

use crate::accepted::Judged;
use crate::tally::{Owner, tally_listed};
use records::record::{InterfaceRecord, LayerRecord, Record, Run};
use vir::ids::{InterfaceId, LayerId};
use vir::interface::InterfaceKind;

// A record that lists stages. Each of them is to have its number in a field of its own.
pub trait Lists: Record {
    ghost lister: { Lister };

    ghost list: { Self → Option Run };

    // The record of a number, as an owner.
    fn owner(k: u16) -> Owner
        ensures { result ≡ owner_of lister k };

    // The stages that it lists; none if it lists something else.
    fn stages(self) -> Option<Run>
        ensures { result ≡ list self };

    // As the definitions have it.
    ghost section: { Self.SECTION ≡ section_of lister };

    ghost at_place: { (s : List ℕ) (p : ℕ) → list (Self.at s p) ≡ list_at lister s p };
}

impl Lists for InterfaceRecord {
    ghost lister = { ByInterface };

    ghost list = { stages_listed };

    ghost section = { refl };

    ghost at_place = { λ s p. refl };

    fn owner(k: u16) -> Owner {
        Owner::Interface(InterfaceId(k))
    }

    fn stages(self) -> Option<Run> {
        if self.kind == InterfaceKind::Inspect as u8 {
            None
        } else {
            Some(self.list)
        }
    }
}

impl Lists for LayerRecord {
    ghost lister = { ByLayer };

    ghost list = { λ l. Some l.stages };

    ghost section = { refl };

    ghost at_place = { λ s p. refl };

    fn owner(k: u16) -> Owner {
        Owner::Layer(LayerId(k))
    }

    fn stages(self) -> Option<Run> {
        Some(self.stages)
    }
}

// One record: the stages that it lists have its number, and are counted.
fn own<L: Lists>(image: &Judged, k: usize, counts: &mut [u8; 256]) -> bool
    requires { k < count_of image.now.records.counts L.SECTION }
    ensures { (result ≡ all (λ t. eqb (number_in L.lister (stage_of (viewed image.now.records) t)) k) (listed_by L.lister (viewed image.now.records) k))
        × (counts.new ≡ tally (listed_by L.lister (viewed image.now.records) k) counts.old) }
{
    let record: L = image.records.nth(k);
    let Some(run) = record.stages() else {
        return true;
    };
    tally_listed(&image.records, run, L::owner(k as u16), counts)
}

// All of them.
pub fn own_all<L: Lists>(image: &Judged, counts: &mut [u8; 256]) -> bool
    ensures { (result ≡ all_own L.lister (viewed image.now.records))
        × (counts.new ≡ tally (all_listed L.lister (viewed image.now.records)) counts.old) }
{
    let mut ok = true;
    for k in 0..L::SECTION.count(image.records.counts) {
        ok = ok & own::<L>(image, k, counts);
    }
    ok
}
