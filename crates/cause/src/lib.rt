//! What made a tick go where it went: the row that it took, the conditions that kept the label's other rows from it, and the result bit.
//! `conditions` finds these, `table_causes` tells them of a tick on a prepared table, and `explaining` is the entry point, with refusal 21.
#![tactic(auto)]

ghost use Rattle.cause.specs.Laws.{SameRow, SameTick, RowTaken, RowLeads, CareNeeded, RefusedExactly, CauseTold};

mod conditions;
pub mod explaining;
mod table_causes;

pub use conditions::against_rows;

/// Which row of the image a tick takes, counted from 0; the conditions that decide it, bit i for condition i; and the result bit of the
/// number called, 2 where none decides.
#[derive(Drop)]
pub struct Cause {
    pub row: u16,
    pub mask: u16,
    pub bit: u8,
}

/// A cause is exact, on every accepted image and from every state that fits it: it names the row that the tick takes and conditions that
/// decide it, and it is refused exactly where there is none. What the entry point tells is such a cause.
pub fn a_cause_is_exact()
    ensures same_row { SameRow }
    ensures same_tick { SameTick }
    ensures row_taken { RowTaken }
    ensures row_leads { RowLeads }
    ensures care_needed { CareNeeded }
    ensures refused_exactly { RefusedExactly }
    ensures told { CauseTold }
{}
