// Refusal 4: a field of a node outside its values.
ghost use Rattle.std.specs.Prelude.{◌≡◌, ◌+◌, ◌*◌, ◌≤◌, length};
ghost use Rattle.charts.specs.Layout.{Begin, Operation, Condition, kind_of};
ghost use Rattle.charts.specs.Check.{is_filled_from, has_bad_use, has_bad_field};

use charts::field;
use charts::layout::*;
use text::frames::sizes::RECORD;

// A byte of i to 9 of node v is not 0.
#[tactic(auto, using(crate::proofs::Found::trying))]
fn filled_from(records: &[u8], v: usize, i: usize) -> bool
    requires whole_record { RECORD * v + RECORD ≤ length records.now }
    requires within_record { i ≤ RECORD }
    ensures { result ≡ is_filled_from records.now v i }
{
    for k in i..RECORD {
        if field(records, v, k) != 0 {
            return true;
        }
    }
    false
}

// A Begin uses byte 3, and byte 2 for its mark, 0 or 1.
fn bad_begin(records: &[u8], v: usize) -> bool
    requires { RECORD * v + RECORD ≤ length records.now }
    ensures { result ≡ has_bad_use records.now v Begin }
{
    1 < field(records, v, ARGUMENT) || filled_from(records, v, NEXT1)
}

// An operation has no use for byte 4, and its result is 0 to 2.
fn bad_operation(records: &[u8], v: usize) -> bool
    requires { RECORD * v + RECORD ≤ length records.now }
    ensures { result ≡ has_bad_use records.now v Operation }
{
    field(records, v, NEXT1) != 0 || 2 < field(records, v, RESULT)
}

// A condition's number is 0 to 15, and it uses bytes 3 and 4 besides.
fn bad_condition(records: &[u8], v: usize) -> bool
    requires { RECORD * v + RECORD ≤ length records.now }
    ensures { result ≡ has_bad_use records.now v Condition }
{
    15 < field(records, v, ARGUMENT) || filled_from(records, v, RESULT)
}

// By the kind: a field of node v outside its values, or a needless byte that is not 0.
fn bad_use(records: &[u8], v: usize, kind: u8) -> bool
    requires { RECORD * v + RECORD ≤ length records.now }
    ensures { result ≡ has_bad_use records.now v (kind_of kind) }
{
    match kind {
        BEGIN => bad_begin(records, v),
        END => filled_from(records, v, ARGUMENT),
        OPERATION => bad_operation(records, v),
        CONDITION => bad_condition(records, v),
        FUNCTION => filled_from(records, v, RESULT),
        _ => true,
    }
}

/// 4: node v has a field outside its values.
#[tactic(auto, unfolding(charts::specs::Check::has_bad_field))]
pub fn bad_field(records: &[u8], v: usize) -> bool
    requires { RECORD * v + RECORD ≤ length records.now }
    ensures { result ≡ has_bad_field records.now v }
{
    let scheme = field(records, v, SCHEME);
    scheme == 0 || 16 < scheme || bad_use(records, v, field(records, v, KIND))
}
