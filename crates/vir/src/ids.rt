// One tuple struct for each kind of number, as new_idx! has them, so that none is taken for another.
ghost use Rattle.std.specs.Prelude.{◌≡◌};
ghost use Rattle.vir.specs.Ids.{layer_id_of, inverse, is_inverse, idx};

// Document 01: where an index may be missing, this says that it is.
pub const NONE: u16 = 65535;

#[derive(Clone, Copy, Debug, PartialEq, Eq)]
pub struct LayerId(pub u16);

#[derive(Clone, Copy, Debug, PartialEq, Eq)]
pub struct StageId(pub u16);

#[derive(Clone, Copy, Debug, PartialEq, Eq)]
pub struct InterfaceId(pub u16);

#[derive(Clone, Copy, Debug, PartialEq, Eq)]
pub struct WireId(pub u16);

#[derive(Clone, Copy, Debug, PartialEq, Eq)]
pub struct Local(pub u16);

#[derive(Clone, Copy, Debug, PartialEq, Eq)]
pub struct EffectVar(pub u16);

#[derive(Clone, Copy, Debug, PartialEq, Eq)]
pub struct RelationId(pub u16);

#[derive(Clone, Copy, Debug, PartialEq, Eq)]
pub struct TypeIdx(pub u16);

#[derive(Clone, Copy, Debug, PartialEq, Eq)]
pub struct Span(pub u32);

// A type's number, with bit 15 for the inverse.
#[derive(Clone, Copy, Debug, PartialEq, Eq)]
pub struct Type(pub u16);

impl LayerId {
    pub const NONE: LayerId = LayerId(NONE);

    // The layer that a step names in 32 bits; NONE where no layer can have that number.
    pub fn from_target(a: u32) -> LayerId
        ensures { result ≡ layer_id_of a }
    {
        LayerId(u16::try_from(a).unwrap_or(NONE))
    }
}

impl InterfaceId {
    pub const NONE: InterfaceId = InterfaceId(NONE);
}

impl EffectVar {
    pub const PASS: EffectVar = EffectVar(0);
}

impl Type {
    pub fn inverse(self) -> Type
        ensures { result.0 ≡ inverse self.0 }
    {
        if self.0 < 32768 {
            Type(self.0 + 32768)
        } else {
            Type(self.0 - 32768)
        }
    }

    pub fn inv(self) -> bool
        ensures { result ≡ is_inverse self.0 }
    {
        32768 <= self.0
    }

    pub fn idx(self) -> TypeIdx
        ensures { result.0 ≡ idx self.0 }
    {
        TypeIdx(self.0 % 32768)
    }
}
