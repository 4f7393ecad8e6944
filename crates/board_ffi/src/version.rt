//! Which header the library was built with.

ghost use Rattle.std.specs.Prelude.{◌≡◌};
ghost use Rattle.board_ffi.specs.Version.{header_version};

/// `KALYUBOS_VERSION` of the header: 10000 for each major version, 100 for each minor one, and the patch.
pub(crate) const VERSION: u32 = 300;

/// The version of the header that the library was built with.
#[unsafe(no_mangle)]
pub extern "C" fn kalyubos_version() -> u32
    ensures { result ≡ header_version }
{
    VERSION
}
