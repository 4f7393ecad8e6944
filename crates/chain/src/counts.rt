//! What the services did that were handed a chain as their room. It is counted beside the proof: nothing is stated of the
//! numbers, and tests compare them.

/// What the services of one room did, each number modulo 2^64.
#[derive(Clone, Copy, Default)]
pub struct Counts {
    /// How many chains were given back as used.
    pub chains: u64,
    /// How many bytes devices wrote into them: the sum of their used lengths.
    pub bytes_in: u64,
    /// How many bytes their readable buffers had.
    pub bytes_out: u64,
    /// How many services ended by a fault.
    pub faults: u64,
    /// How many pieces of services ended in a pause.
    pub pauses: u64,
}

impl Counts {
    /// Counts a chain with so many readable bytes that was given back with this used length.
    pub fn used(&mut self, readable: u32, written: u32) {
        self.chains = self.chains.wrapping_add(1);
        self.bytes_in = self.bytes_in.wrapping_add(u64::from(written));
        self.bytes_out = self.bytes_out.wrapping_add(u64::from(readable));
    }
}
