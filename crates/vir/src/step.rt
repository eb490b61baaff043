ghost use Rattle.std.specs.Prelude.{◌≡◌};
ghost use Rattle.vir.specs.Step.{onward_of, step_of, step_ports};

use crate::arity::Arity;
use crate::ids::{InterfaceId, LayerId, Local, NONE, Span};
use crate::invocation::Invocation;

// A step without its ports. From Link on it carries a key that nothing here reads.
#[derive(Clone, Copy, Debug, PartialEq, Eq)]
pub enum Step {
    Invoke(Span, Local, Invocation),
    Transfer(InterfaceId),
    Diverge(LayerId, Option<InterfaceId>),
    Link(u32),
    Call(u32),
    Const(u32),
    Composite(u32),
    Rewrap(u32),
    Enum(u32),
    Union(u32),
    Ref(u32),
    List(u32),
    String(u32),
    InlineIvy(u32),
    BoolNot(u32),
    BoolAnd(u32),
}

// The interface of a Diverge, which may have none.
fn onward(b: u16) -> Option<InterfaceId>
    ensures { result ≡ onward_of b }
{
    if b == NONE {
        None
    } else {
        Some(InterfaceId(b))
    }
}

impl Step {
    pub fn from_fields(tag: u8, a: u32, b: u16) -> Option<Step>
        ensures { result ≡ step_of tag a b }
    {
        match tag {
            0 => Some(Step::Invoke(Span(a), Local(b), Invocation::Barrier)),
            1 => Some(Step::Invoke(Span(a), Local(b), Invocation::Read)),
            2 => Some(Step::Invoke(Span(a), Local(b), Invocation::Write)),
            3 => Some(Step::Invoke(Span(a), Local(b), Invocation::ReadBarrier)),
            4 => Some(Step::Invoke(Span(a), Local(b), Invocation::BarrierWrite)),
            5 => Some(Step::Invoke(Span(a), Local(b), Invocation::ReadWrite)),
            6 => Some(Step::Transfer(InterfaceId(b))),
            7 => Some(Step::Diverge(LayerId::from_target(a), onward(b))),
            8 => Some(Step::Link(a)),
            9 => Some(Step::Call(a)),
            10 => Some(Step::Const(a)),
            11 => Some(Step::Composite(a)),
            12 => Some(Step::Rewrap(a)),
            13 => Some(Step::Enum(a)),
            14 => Some(Step::Union(a)),
            15 => Some(Step::Ref(a)),
            16 => Some(Step::List(a)),
            17 => Some(Step::String(a)),
            18 => Some(Step::InlineIvy(a)),
            19 => Some(Step::BoolNot(a)),
            20 => Some(Step::BoolAnd(a)),
            _ => None,
        }
    }

    // How many ports it has: as many as `Step::ports` yields.
    pub fn ports(self) -> Arity
        ensures { result ≡ step_ports self }
    {
        match self {
            Step::Invoke(_, _, invocation) => invocation.ports(),
            Step::Transfer(_) => Arity::AtMost(1),
            Step::Diverge(_, onward) => match onward {
                Some(_) => Arity::AtMost(1),
                None => Arity::Exactly(0),
            },
            Step::Link(_) => Arity::Exactly(2),
            Step::Call(_) => Arity::AtLeast(1),
            Step::Const(_) => Arity::Exactly(1),
            Step::Composite(_) => Arity::AtLeast(1),
            Step::Rewrap(_) => Arity::Exactly(2),
            Step::Enum(_) => Arity::Exactly(2),
            Step::Union(_) => Arity::Exactly(2),
            Step::Ref(_) => Arity::Exactly(3),
            Step::List(_) => Arity::AtLeast(1),
            Step::String(_) => Arity::AtLeast(1),
            Step::InlineIvy(_) => Arity::AtLeast(1),
            Step::BoolNot(_) => Arity::Exactly(2),
            Step::BoolAnd(_) => Arity::Exactly(3),
        }
    }
}
