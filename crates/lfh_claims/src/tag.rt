//! What a tag tells.

/// A subsegment, as the tags of its pages name it: the bucket of its blocks, the slot of the callers that it serves, and its
/// first page.
#[derive(Clone, Copy, Debug, PartialEq, Eq)]
pub struct Tag {
    pub bucket: u8,
    pub slot: u8,
    pub head: u32,
}
