// normalizer.rs. For now its definitions, in specs/.
#![tactic(auto)]
