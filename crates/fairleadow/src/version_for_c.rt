// The call from C that tells the version of the library, by which a caller sees whether it was compiled with the header of today.
ghost use Rattle.std.specs.Prelude.{◌≡◌};

/// The version of these entry points. It rises where a function, a number or a state's bytes change their meaning, and where any is added.
pub const VERSION: u32 = 3;

/// The version of the archive, by which a caller sees whether its header is of the same. Refuses nothing.
#[unsafe(no_mangle)]
pub extern "C" fn fairleadow_version() -> u32
    ensures { result ≡ VERSION }
{
    VERSION
}
