// How many variables, relations, touches and disconnects were made.
#[derive(Clone, Copy)]
pub struct Built {
    pub vars: u16,
    pub relations: u16,
    pub touches: u16,
    pub disconnects: u16,
}

// A variable, a local, and the number of an effect.
pub type Touch = [u16; 3];

// A stage, and the variables of its connected and its disconnected side.
pub type Disconnect = [u16; 3];

// What `fill_segments` reads: the effects that every local starts from, all touches, all disconnects.
#[derive(Clone, Copy)]
pub struct Seeds<'a> {
    pub base: &'a [u8],
    pub touches: &'a [Touch],
    pub disconnects: &'a [Disconnect],
}
