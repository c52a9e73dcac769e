// Whether a number may be served by a scheme from then on: refusal 22.
ghost use Rattle.std.specs.Prelude.{◌≡◌};
ghost use Rattle.bindings.specs.Binding.{is_bad_rebinding};
ghost use Rattle.image.specs.Decode.{handler_in, scheme_count};

use tables::Table;

/// Whether number `number` may not be served by scheme `scheme`, refusal 22: one of them is not of 2 to H, or the number is the handler's.
pub fn bad_rebinding(table: &Table, number: usize, scheme: usize) -> bool
    ensures { result ≡ is_bad_rebinding (scheme_count table.now.bytes.now) (handler_in table.now.bytes.now) number scheme }
{
    let schemes = table.schemes as usize;
    number < 2
        || schemes < number
        || scheme < 2
        || schemes < scheme
        || number == table.handler() as usize
}
