// The version of the library.

ghost use Rattle.std.specs.Prelude.{◌≡◌, ◌+◌, ◌*◌};

/// The version of the library, 0.9.0: a million for each major one, a thousand for each minor one,
/// and the patch. It needs no handle.
#[unsafe(no_mangle)]
pub extern "C" fn motion_version() -> u32
    ensures { result ≡ 0 * 1000000 + 9 * 1000 + 0 }
{
    9000
}
