// The limits that a lawful circuit keeps, each as specs/Words.antt has it.
// With them all that is worked out of its words fits, and buffers can have a fixed size.

// copies and places of a layer take at most so many bits together
pub const MOST_BITS: u32 = 16;

// no layer has more values in all copies: 2^MOST_BITS
pub const MOST_PLACES: usize = 65536;

pub const MOST_WORDS: usize = 524288;

pub const MOST_LAYERS: u32 = 32;
