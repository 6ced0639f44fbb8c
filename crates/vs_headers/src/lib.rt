//! The header words of the chunks of the variable-size layer.
//!
//! Each chunk of a subsegment, place or gap, has a header word. It is kept encoded: XOR with a key of the heap's own and
//! with the address of the chunk, so that a header that was overwritten, or copied from elsewhere, does not decode. The
//! encoding follows the published description of the segment heap; the fields are this project's own.
#![tactic(auto)]

pub mod laws;
#[cfg(test)]
mod tests;

ghost use Rattle.std.specs.Prelude.{◌≡◌};
ghost use Rattle.vs_headers.specs.Headers.{encoded, key_of, decoded};

/// The fields of a header. A granule has 16 bytes.
#[derive(Clone, Copy, Debug, PartialEq, Eq)]
pub struct Head {
    /// The granules of the chunk, its header included.
    pub units: u16,
    /// The granules of the chunk in front of it in its subsegment, 0 for the first.
    pub prev: u16,
    /// The bytes of a place behind its block, 0 for a gap.
    pub unused: u8,
    /// Whether the chunk is a place, and not a gap.
    pub busy: bool,
}

/// What the key of a heap is beside its seed.
const KEY_MASK: u64 = 0x9e37_79b9_7f4a_7c15;

/// The key of a heap with this seed.
pub fn key_of(seed: u64) -> u64
    ensures { result ≡ key_of seed }
{
    seed ^ KEY_MASK
}

/// The header word of a chunk at `addr`, in a heap with this key.
pub fn encode(head: Head, key: u64, addr: u64) -> u64
    ensures { result ≡ encoded head key addr }
{
    let plain = u64::from(head.units)
        | u64::from(head.prev) << 16
        | u64::from(head.unused) << 32
        | u64::from(head.busy) << 40;
    plain ^ key ^ addr
}

/// The fields of a header word of a chunk at `addr`, in a heap with this key. It is None exactly where the decoded word
/// has a bit set above bit 40, and so is no header of this chunk.
pub fn decode(word: u64, key: u64, addr: u64) -> Option<Head>
    ensures { result ≡ decoded word key addr }
{
    let plain = word ^ key ^ addr;
    if plain >> 41 != 0 {
        return None;
    }
    Some(Head {
        units: (plain & 0xffff) as u16,
        prev: (plain >> 16 & 0xffff) as u16,
        unused: (plain >> 32 & 0xff) as u8,
        busy: plain >> 40 & 1 == 1,
    })
}
