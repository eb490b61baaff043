ghost use Rattle.std.specs.Prelude.{◌≡◌, ok_or};
ghost use Rattle.vir.specs.Interface.{kind_of, entries_of};

use crate::arity::Arity;
use crate::unknown::Unknown;

#[derive(Clone, Copy, Debug, PartialEq, Eq)]
pub enum InterfaceKind {
    Unconditional,
    Branch,
    Match,
    Closure,
    Inspect,
}

impl TryFrom<u8> for InterfaceKind {
    type Error = Unknown;

    ghost try_from_gives = { λ n r. r ≡ ok_or (kind_of n) (record { 0 = n }) };

    fn try_from(n: u8) -> Result<InterfaceKind, Unknown> {
        match n {
            0 => Ok(InterfaceKind::Unconditional),
            1 => Ok(InterfaceKind::Branch),
            2 => Ok(InterfaceKind::Match),
            3 => Ok(InterfaceKind::Closure),
            4 => Ok(InterfaceKind::Inspect),
            _ => Err(Unknown(n)),
        }
    }
}

impl InterfaceKind {
    // How many stages, or locals, it lists.
    pub fn entries(self) -> Arity
        ensures { result ≡ entries_of self }
    {
        match self {
            InterfaceKind::Unconditional => Arity::Exactly(1),
            InterfaceKind::Branch => Arity::Exactly(2),
            InterfaceKind::Match => Arity::AtLeast(0),
            InterfaceKind::Closure => Arity::Exactly(3),
            InterfaceKind::Inspect => Arity::AtLeast(0),
        }
    }
}
