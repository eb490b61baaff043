// How many entries a list may have.
ghost use Rattle.std.specs.Prelude.{◌≡◌};
ghost use Rattle.vir.specs.Arity.{allows};

#[derive(Clone, Copy, Debug, PartialEq, Eq)]
pub enum Arity {
    Exactly(u16),
    AtLeast(u16),
    AtMost(u16),
}

impl Arity {
    // Between the fewest and the most: two comparisons, whatever the case.
    pub fn allows(self, count: u16) -> bool
        ensures { result ≡ allows self count }
    {
        let (fewest, most) = match self {
            Arity::Exactly(n) => (n, n),
            Arity::AtLeast(n) => (n, u16::MAX),
            Arity::AtMost(n) => (0, n),
        };
        fewest <= count && count <= most
    }
}
