//! What placement takes and gives.

/// Where a definition is to stand in memory.
#[derive(Clone, Copy)]
pub struct DefAddress {
    /// The number of its image, from 0.
    pub image: usize,
    /// The row of its symbol, as the image counts it.
    pub symbol: u32,
    /// Its address in memory, in bytes.
    pub address: u64,
    /// Its size in bytes: the range of its section from where its symbol stands.
    pub size: u64,
}

/// A name that no image defines for the others, with its address in memory.
#[derive(Drop)]
pub struct Extern {
    pub name: Vec<u8>,
    pub address: u64,
}

/// The bytes of a definition in memory, relocated.
#[derive(Drop)]
pub struct PlacedBytes {
    /// The number of its image, from 0.
    pub image: usize,
    /// The row of its symbol, as the image counts it.
    pub symbol: u32,
    /// Its address in memory, in bytes.
    pub address: u64,
    pub bytes: Vec<u8>,
}
