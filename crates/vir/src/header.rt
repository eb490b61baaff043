ghost use Rattle.std.specs.Prelude.{◌≡◌, ok_or};
ghost use Rattle.vir.specs.Header.{header_of, header_ports};

use crate::arity::Arity;
use crate::unknown::Unknown;

#[derive(Clone, Copy, Debug, PartialEq, Eq)]
pub enum Header {
    Bare,
    Const,
    Fn,
    Match,
    Closure,
    Fork,
    Drop,
    Entry,
}

impl TryFrom<u8> for Header {
    type Error = Unknown;

    ghost try_from_gives = { λ n r. r ≡ ok_or (header_of n) (record { 0 = n }) };

    fn try_from(n: u8) -> Result<Header, Unknown> {
        match n {
            0 => Ok(Header::Bare),
            1 => Ok(Header::Const),
            2 => Ok(Header::Fn),
            3 => Ok(Header::Match),
            4 => Ok(Header::Closure),
            5 => Ok(Header::Fork),
            6 => Ok(Header::Drop),
            7 => Ok(Header::Entry),
            _ => Err(Unknown(n)),
        }
    }
}

impl Header {
    // How many ports it has, the transfer's data port not counted.
    pub fn ports(self) -> Arity
        ensures { result ≡ header_ports self }
    {
        match self {
            Header::Bare => Arity::Exactly(0),
            Header::Const => Arity::Exactly(1),
            Header::Fn => Arity::AtLeast(1),
            Header::Match => Arity::Exactly(1),
            Header::Closure => Arity::AtLeast(1),
            Header::Fork => Arity::Exactly(2),
            Header::Drop => Arity::Exactly(0),
            Header::Entry => Arity::AtLeast(0),
        }
    }
}
