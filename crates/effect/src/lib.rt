// Vine's effect.rs: what the uses of a local along a path come to, and the two tables over it.
#![tactic(auto)]

ghost use Rattle.std.specs.Prelude.{◌≡◌};
ghost use Rattle.effect.specs.Effect.{number_of, effect_of, join, union, read, pass, barrier, write};

#[derive(Clone, Copy, Debug, PartialEq, Eq)]
pub enum Effect {
    Pass,
    Barrier,
    PassBarrier,
    ReadPass,
    ReadBarrier,
    ReadPassBarrier,
    BarrierWrite,
    PassBarrierWrite,
    ReadBarrierWrite,
    ReadPassBarrierWrite,
    Never,
}

use Effect::{
    Barrier as B, BarrierWrite as BW, Never as X, Pass as P, PassBarrier as PB,
    PassBarrierWrite as PBW, ReadBarrier as RB, ReadBarrierWrite as RBW, ReadPass as RP,
    ReadPassBarrier as RPB, ReadPassBarrierWrite as RPBW,
};

const JOIN: [[Effect; 11]; 11] = [
    [P, B, PB, RP, RB, RPB, BW, PBW, RBW, RPBW, X],
    [B, B, B, B, B, B, BW, B, BW, B, X],
    [PB, B, PB, RPB, RB, RPB, BW, PB, RBW, RPB, X],
    [RP, RB, RPB, RP, RB, RPB, RBW, RPBW, RBW, RPBW, X],
    [RB, RB, RB, RB, RB, RB, RBW, RB, RBW, RB, X],
    [RPB, RB, RPB, RPB, RB, RPB, RBW, RPB, RBW, RPB, X],
    [BW, B, B, BW, B, B, BW, BW, BW, BW, X],
    [PBW, B, PB, RPBW, RB, RPB, BW, PBW, RBW, RPBW, X],
    [RBW, RB, RB, RBW, RB, RB, RBW, RBW, RBW, RBW, X],
    [RPBW, RB, RPB, RPBW, RB, RPB, RBW, RPBW, RBW, RPBW, X],
    [X, X, X, X, X, X, X, X, X, X, X],
];

const UNION: [[Effect; 11]; 11] = [
    [P, PB, PB, RP, RPB, RPB, PBW, PBW, RPBW, RPBW, P],
    [PB, B, PB, RPB, RB, RPB, B, PB, RB, RPB, B],
    [PB, PB, PB, RPB, RPB, RPB, PB, PB, RPB, RPB, PB],
    [RP, RPB, RPB, RP, RPB, RPB, RPBW, RPBW, RPBW, RPBW, RP],
    [RPB, RB, RPB, RPB, RB, RPB, RB, RPB, RB, RPB, RB],
    [RPB, RPB, RPB, RPB, RPB, RPB, RPB, RPB, RPB, RPB, RPB],
    [PBW, B, PB, RPBW, RB, RPB, BW, PBW, RBW, RPBW, BW],
    [PBW, PB, PB, RPBW, RPB, RPB, PBW, PBW, RPBW, RPBW, PBW],
    [RPBW, RB, RPB, RPBW, RB, RPB, RBW, RPBW, RBW, RPBW, RBW],
    [RPBW, RPB, RPB, RPBW, RPB, RPB, RPBW, RPBW, RPBW, RPBW, RPBW],
    [P, B, PB, RP, RB, RPB, BW, PBW, RBW, RPBW, X],
];

// Every effect, in the order of the numbers.
const ALL: [Effect; 11] = [P, B, PB, RP, RB, RPB, BW, PBW, RBW, RPBW, X];

// The number of an effect in document 01.
impl From<Effect> for u8 {
    ghost from_gives = { λ e n. n ≡ number_of e };

    fn from(effect: Effect) -> u8 {
        effect as u8
    }
}

// The effect of a number; Never past the last.
impl From<u8> for Effect {
    ghost from_gives = { λ n e. e ≡ effect_of n };

    fn from(n: u8) -> Effect {
        ALL.get(n as usize).copied().unwrap_or(Effect::Never)
    }
}

impl Effect {
    // One effect, then the other.
    pub fn join(self, other: Effect) -> Effect
        ensures { result ≡ join self other }
    {
        JOIN[self as usize][other as usize]
    }

    // Either effect.
    pub fn union(self, other: Effect) -> Effect
        ensures { result ≡ union self other }
    {
        UNION[self as usize][other as usize]
    }

    #[tactic(auto, unfolding(crate::specs::Effect::read))]
    pub fn read(self) -> bool
        ensures { result ≡ read self }
    {
        matches!(self, RP | RB | RPB | RBW | RPBW)
    }

    #[tactic(auto, unfolding(crate::specs::Effect::pass))]
    pub fn pass(self) -> bool
        ensures { result ≡ pass self }
    {
        matches!(self, P | PB | RP | RPB | PBW | RPBW)
    }

    #[tactic(auto, unfolding(crate::specs::Effect::barrier))]
    pub fn barrier(self) -> bool
        ensures { result ≡ barrier self }
    {
        matches!(self, B | PB | RB | RPB | BW | PBW | RBW | RPBW)
    }

    #[tactic(auto, unfolding(crate::specs::Effect::write))]
    pub fn write(self) -> bool
        ensures { result ≡ write self }
    {
        matches!(self, BW | PBW | RBW | RPBW)
    }
}
