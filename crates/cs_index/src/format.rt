// The magic numbers of the index file.

/// The first 16 bytes of an index.
pub(crate) const MAGIC: &[u8; 16] = b"csearch index 1\n";

/// The last 16 bytes of an index.
pub(crate) const TRAILER_MAGIC: &[u8; 16] = b"\ncsearch trailr\n";

/// The length of the trailer: five section offsets of four bytes each, and the magic.
pub(crate) const TRAILER_LEN: usize = 36;
