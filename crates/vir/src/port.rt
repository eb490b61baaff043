ghost use Rattle.std.specs.Prelude.{◌≡◌};
ghost use Rattle.vir.specs.Port.{port_of};

use crate::ids::{Span, WireId};

// What stands at a port. All but a wire carry a number that nothing here reads.
#[derive(Clone, Copy, Debug, PartialEq, Eq)]
pub enum PortKind {
    Nil(u32),
    Bool(u32),
    N32(u32),
    F32(u32),
    F64(u32),
    Nat(u32),
    Wire(Span, WireId),
    Error(u32),
}

impl PortKind {
    pub fn from_fields(kind: u8, a: u32, b: u16) -> Option<PortKind>
        ensures { result ≡ port_of kind a b }
    {
        match kind {
            0 => Some(PortKind::Nil(a)),
            1 => Some(PortKind::Bool(a)),
            2 => Some(PortKind::N32(a)),
            3 => Some(PortKind::F32(a)),
            4 => Some(PortKind::F64(a)),
            5 => Some(PortKind::Nat(a)),
            6 => Some(PortKind::Wire(Span(a), WireId(b))),
            7 => Some(PortKind::Error(a)),
            _ => None,
        }
    }
}
