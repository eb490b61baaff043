// A record is judged by its rule, and says where the next lists start.
ghost use Rattle.std.specs.Prelude.{◌≡◌, List, ℕ, Option};
ghost use Rattle.records.specs.declared.layout.Counts.{Counts};
ghost use Rattle.records.specs.declared.running.Running.{Running};
ghost use Rattle.std.proofs.Common.{refl};
ghost use Rattle.judging.specs.Judge.{judge_layer, judge_interface, judge_stage, judge_local, judge_type, judge_step, judge_port, judge};

use records::Records;
use records::record::{
    InterfaceRecord, LayerRecord, LocalRecord, PortRecord, Record, StageRecord, StepRecord,
    TypeRecord,
};
use records::running::Running;
use rules::faults::{
    interface_good, layer_good, local_good, port_good, stage_good, step_good, type_good,
};

// A record that has a rule.
pub trait Judge: Record {
    ghost judged: { List ℕ → Counts → Running → Self → Option Running };

    // Where the next lists start; none if it breaks its rule.
    fn judge(self, records: &Records, r: Running) -> Option<Running>
        ensures { result ≡ judged records.now.bytes.now records.now.counts r self };

    // As the definition has it for the section.
    ghost of_section: { (s : List ℕ) (c : Counts) (p : ℕ) (r : Running) → judged s c r (Self.at s p) ≡ judge Self.SECTION s c p r };
}

impl Judge for LayerRecord {
    ghost judged = { judge_layer };

    ghost of_section = { λ s c p r. refl };

    fn judge(self, records: &Records, r: Running) -> Option<Running> {
        if !layer_good(records.bytes, records.counts, r, self) {
            return None;
        }
        Some(Running {
            refs: r.refs + self.stages.count as usize,
            ..r
        })
    }
}

impl Judge for InterfaceRecord {
    ghost judged = { judge_interface };

    ghost of_section = { λ s c p r. refl };

    fn judge(self, records: &Records, r: Running) -> Option<Running> {
        if !interface_good(records.bytes, records.counts, r, self) {
            return None;
        }
        Some(Running {
            refs: r.refs + self.list.count as usize,
            ..r
        })
    }
}

impl Judge for StageRecord {
    ghost judged = { judge_stage };

    ghost of_section = { λ s c p r. refl };

    fn judge(self, records: &Records, r: Running) -> Option<Running> {
        if !stage_good(records.bytes, records.counts, r, self) {
            return None;
        }
        let payload = self.payload;
        Some(Running {
            refs: r.refs + self.declarations.count as usize,
            steps: r.steps + self.steps.count as usize,
            ports: r.ports + self.ports.count as usize + payload as usize,
        })
    }
}

impl Judge for LocalRecord {
    ghost judged = { λ s c. judge_local c };

    ghost of_section = { λ s c p r. refl };

    fn judge(self, records: &Records, r: Running) -> Option<Running> {
        local_good(records.counts, self).then_some(r)
    }
}

impl Judge for TypeRecord {
    ghost judged = { λ s c. judge_type };

    ghost of_section = { λ s c p r. refl };

    fn judge(self, _: &Records, r: Running) -> Option<Running> {
        type_good(self).then_some(r)
    }
}

impl Judge for StepRecord {
    ghost judged = { λ s c. judge_step c };

    ghost of_section = { λ s c p r. refl };

    fn judge(self, records: &Records, r: Running) -> Option<Running> {
        if !step_good(records.counts, r, self) {
            return None;
        }
        Some(Running {
            ports: r.ports + self.ports.count as usize,
            ..r
        })
    }
}

impl Judge for PortRecord {
    ghost judged = { λ s c. judge_port c };

    ghost of_section = { λ s c p r. refl };

    fn judge(self, records: &Records, r: Running) -> Option<Running> {
        port_good(records.counts, self).then_some(r)
    }
}
