// The fields of node records.
ghost use Rattle.std.specs.Prelude.{◌≡◌, ◌+◌, ◌*◌, ◌<◌, length};
ghost use Rattle.text.specs.frames.Frame.{field};

use text::frames::sizes::RECORD;

/// Byte k, 0 to 9, of node v.
pub fn field(records: &[u8], v: usize, k: usize) -> u8
    requires { RECORD * v + k < length records.now }
    ensures { result ≡ field records.now v k }
{
    let at = RECORD * v + k;
    records[at]
}
