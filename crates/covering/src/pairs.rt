// Whether some word and bit match two rows, and two of some rows that stand one after the other.
ghost use Rattle.std.specs.Prelude.{◌≡◌, ◌-◌, ◌≤◌, ◌<◌};
ghost use Rattle.text.specs.frames.Frame.{size};
ghost use Rattle.image.specs.Decode.{row_in_frame};
ghost use Rattle.covering.specs.Matched.{is_together};
ghost use Rattle.covering.specs.inner.CoveringContracts.{row_with, is_together_with_some, has_any_together};

use image::layout::*;
use image::{byte, pair};

/// Whether some word and bit match the row in frame g and one with this care mask, these values and this function bit.
pub fn meets(table: &[u8], g: usize, care: u16, values: u16, bit: u8) -> bool
    requires { g < size table.now }
    ensures { result ≡ is_together (row_with care values bit) (row_in_frame table.now g) }
{
    let mine = values & pair(table, g, CARE);
    let other = pair(table, g, VALUES) & care;
    let second = byte(table, g, FUNCTION_BIT);
    mine == other && (bit == NO_BIT || second == NO_BIT || bit == second)
}

/// Whether some word and bit match the rows in frames f and g of a table: by their care masks, values and function bits alone.
pub fn are_together(table: &[u8], f: usize, g: usize) -> bool
    requires first_inside { f < size table.now }
    requires second_inside { g < size table.now }
    ensures { result ≡ is_together (row_in_frame table.now f) (row_in_frame table.now g) }
{
    let care = pair(table, f, CARE);
    let values = pair(table, f, VALUES);
    let bit = byte(table, f, FUNCTION_BIT);
    meets(table, g, care, values, bit)
}

// Whether some word and bit match the row in frame f and one in the frames from first up to it.
fn meets_before(table: &[u8], first: usize, f: usize) -> bool
    requires in_order { first ≤ f }
    requires inside { f < size table.now }
    ensures { result ≡ is_together_with_some table.now (row_in_frame table.now f) first (f - first) }
{
    let care = pair(table, f, CARE);
    let values = pair(table, f, VALUES);
    let bit = byte(table, f, FUNCTION_BIT);
    (first..f).any(|g| meets(table, g, care, values, bit))
}

/// Whether some word and bit match two of the rows in frames from first up to end, each compared with each.
pub fn any_within(table: &[u8], first: usize, end: usize) -> bool
    requires in_order { first ≤ end }
    requires inside { end ≤ size table.now }
    ensures { result ≡ has_any_together table.now first (end - first) }
{
    (first..end).any(|f| meets_before(table, first, f))
}
