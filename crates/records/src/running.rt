// What the judging of records carries along and answers: machine words, since numbers of 16 bits would be packed and unpacked at each record.
#[derive(Clone, Copy, Debug, Default, PartialEq, Eq)]
pub struct Running {
    pub refs: usize,
    pub steps: usize,
    pub ports: usize,
}

// The place of the first record in file order that breaks its rule.
#[derive(Clone, Copy, Debug, PartialEq, Eq)]
pub struct Fault(pub u32);
