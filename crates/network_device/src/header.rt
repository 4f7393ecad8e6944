//! The header in front of each frame (5.1.6).

ghost use Rattle.std.specs.Prelude.{◌≡◌};
ghost use Rattle.network_device.specs.Header.{header_len, receive_header};

/// How many bytes a header has.
pub(crate) const HEADER_LEN: usize = 12;

/// The same, to count the bytes of a chain.
pub(crate) const HEADER: u64 = HEADER_LEN as u64;

/// Where num_buffers stands in it.
const NUM_BUFFERS: usize = 10;

/// The header of a frame that is received: one buffer, and no offload.
pub(crate) fn receive_header() -> [u8; HEADER_LEN]
    ensures { result ≡ receive_header }
{
    let mut header = [0; HEADER_LEN];
    header[NUM_BUFFERS] = 1;
    header
}
