// Refusal 1, of a text or of records.
ghost use Rattle.std.specs.Prelude.{◌≡◌, ◌<◌};
ghost use Rattle.text.specs.frames.Check.{is_bad_length};

/// 1 refuses a length: it is 0, no multiple of the unit, or above the most.
pub fn bad_length(unit: usize, most: usize, n: usize) -> bool
    requires { 0 < unit }
    ensures { result ≡ is_bad_length unit most n }
{
    n == 0 || n % unit != 0 || most < n
}
