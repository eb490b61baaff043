ghost use Rattle.std.specs.Prelude.{◌≡◌};
ghost use Rattle.vir.specs.Invocation.{invocation_effect, invocation_ports};

use crate::arity::Arity;
use effect::Effect;

#[derive(Clone, Copy, Debug, PartialEq, Eq)]
pub enum Invocation {
    Barrier,
    Read,
    Write,
    ReadBarrier,
    BarrierWrite,
    ReadWrite,
}

impl Invocation {
    pub fn ports(self) -> Arity
        ensures { result ≡ invocation_ports self }
    {
        match self {
            Invocation::Barrier => Arity::Exactly(0),
            Invocation::Read => Arity::Exactly(1),
            Invocation::Write => Arity::Exactly(1),
            Invocation::ReadBarrier => Arity::Exactly(1),
            Invocation::BarrierWrite => Arity::Exactly(1),
            Invocation::ReadWrite => Arity::Exactly(2),
        }
    }

    // What it does to a local that is an inverse or not, and may be forked or not.
    pub fn effect(self, inv: bool, fork: bool) -> Effect
        ensures { result ≡ invocation_effect self inv fork }
    {
        match self {
            Invocation::Barrier => Effect::Barrier,
            Invocation::Read => {
                if inv {
                    Effect::BarrierWrite
                } else if fork {
                    Effect::ReadPass
                } else {
                    Effect::ReadBarrier
                }
            }
            Invocation::Write => {
                if inv {
                    if fork {
                        Effect::ReadPass
                    } else {
                        Effect::ReadBarrier
                    }
                } else {
                    Effect::BarrierWrite
                }
            }
            Invocation::ReadBarrier => {
                if inv {
                    Effect::BarrierWrite
                } else {
                    Effect::ReadBarrier
                }
            }
            Invocation::BarrierWrite => {
                if inv {
                    Effect::ReadBarrier
                } else {
                    Effect::BarrierWrite
                }
            }
            Invocation::ReadWrite => Effect::ReadBarrierWrite,
        }
    }
}
