// The records in file order, up to the first that breaks its rule.
ghost use Rattle.std.specs.Prelude.{◌≡◌};
ghost use Rattle.judging.specs.Judge.{walk_section, walk_all};
ghost use Rattle.records.specs.Layout.{sections};

use crate::judge::Judge;
use records::Records;
use records::record::{
    InterfaceRecord, LayerRecord, LocalRecord, PortRecord, StageRecord, StepRecord, TypeRecord,
};
use records::running::{Fault, Running};

// The records of one section. The place goes along: to work it out for each record is dear where there is little to judge.
fn walk_section<R: Judge>(records: &Records, from: Running) -> Result<Running, Fault>
    ensures { result ≡ walk_section records.now.bytes.now records.now.counts R.SECTION from }
{
    let mut r = from;
    let mut p = R::SECTION.start(records.counts);
    for _k in 0..R::SECTION.count(records.counts) {
        let Some(next) = R::read(records.bytes, p).judge(records, r) else {
            return Err(Fault(p as u32));
        };
        r = next;
        p += R::SECTION.size();
    }
    Ok(r)
}

#[tactic(auto, using(crate::proofs::Walks::onwards_ok), unfolding(crate::specs::Judge::walk_all))]
pub fn walk(records: &Records) -> Result<Running, Fault>
    ensures { result ≡ walk_all records.now.bytes.now records.now.counts sections (record { refs = 0; steps = 0; ports = 0 }) }
{
    let layers = walk_section::<LayerRecord>(records, Running::default())?;
    let interfaces = walk_section::<InterfaceRecord>(records, layers)?;
    let stages = walk_section::<StageRecord>(records, interfaces)?;
    let locals = walk_section::<LocalRecord>(records, stages)?;
    let types = walk_section::<TypeRecord>(records, locals)?;
    let steps = walk_section::<StepRecord>(records, types)?;
    let ports = walk_section::<PortRecord>(records, steps)?;
    Ok(ports)
}
