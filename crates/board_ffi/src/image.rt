//! The image's bytes as they stand, while the board lives. A board whose disks the host serves has none.

ghost use Rattle.std.specs.Prelude.{◌≡◌, ◌≢◌, ◌+◌, ◌<◌, ◌≤◌, length, take, drop};
ghost use Rattle.board_ffi.specs.Calls.{Calls, CopiesImage, HasImage, IsOutside};

use crate::codes::{BAD_RANGE, DONE, NO_IMAGE};
use crate::handle::{Handle, session_of};

/// Lends the image in place: where its first byte lies, and how many there are.
#[unsafe(no_mangle)]
pub extern "C" fn kalyubos_image(board: &mut Handle, bytes: &mut *const u8, len: &mut usize) -> u32
    ensures told { Calls board.old.session board.new.session result (HasImage result len.new) }
    ensures kept { result ≢ 0 → (bytes.new ≡ bytes.old) × (len.new ≡ len.old) }
{
    let session = session_of!(board);
    let image = session.image();
    let Some(first) = image.first() else {
        return NO_IMAGE;
    };
    *bytes = std::ptr::from_ref(first);
    *len = image.len();
    DONE
}

/// The image's length in bytes.
#[unsafe(no_mangle)]
pub extern "C" fn kalyubos_image_len(board: &mut Handle, len: &mut usize) -> u32
    ensures told { Calls board.old.session board.new.session result (HasImage result len.new) }
    ensures kept { result ≢ 0 → len.new ≡ len.old }
{
    let session = session_of!(board);
    let image = session.image();
    if image.is_empty() {
        return NO_IMAGE;
    }
    *len = image.len();
    DONE
}

/// Copies bytes out of the image, from byte `start` on.
#[unsafe(no_mangle)]
pub extern "C" fn kalyubos_read_image(board: &mut Handle, start: usize, into: &mut [u8]) -> u32
    ensures copied { result ≡ 0 → Calls board.old.session board.new.session result
        (CopiesImage start (length into.old) into.new) }
    ensures outside { result ≢ 0 → Calls board.old.session board.new.session result
        (IsOutside start (length into.old) result) }
    ensures kept { result ≢ 0 → into.new ≡ into.old }
{
    let session = session_of!(board);
    let image = session.image();
    if image.is_empty() {
        return NO_IMAGE;
    }
    copy(image, start, into)
}

// Copies bytes from byte `start` on, where there are as many.
fn copy(image: &[u8], start: usize, into: &mut [u8]) -> u32
    ensures inside { result ≡ 0 → start + length into.old ≤ length image.now }
    ensures copied { result ≡ 0 → into.new ≡ take (length into.old) (drop start image.now) }
    ensures outside { result ≢ 0 → length image.now < start + length into.old }
    ensures bad_range { result ≢ 0 → result ≡ 4 }
    ensures kept { result ≢ 0 → into.new ≡ into.old }
{
    if image.len() < start || image.len() - start < into.len() {
        return BAD_RANGE;
    }
    into.copy_from_slice(&image[start..start + into.len()]);
    DONE
}
