// Buffers for 256 records of each kind, and for the results of 9,999 calls.

#[derive(Drop)]
pub struct Buffers {
    pub identities: [u8; 20480],
    pub validators: [u64; 1792],
    pub deposits: [u64; 512],
    pub partials: [u64; 768],
    pub consolidations: [u64; 512],
    // three numbers a call
    pub results: [u64; 29997],
}

impl Buffers {
    pub fn blank() -> Buffers {
        Buffers {
            identities: [0; 20480],
            validators: [0; 1792],
            deposits: [0; 512],
            partials: [0; 768],
            consolidations: [0; 512],
            results: [0; 29997],
        }
    }
}
