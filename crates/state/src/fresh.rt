// A fresh state from a stack size, and refusal 14.
ghost use Rattle.std.specs.Prelude.{◌≡◌};
ghost use Rattle.bindings.specs.Binding.{own_binding};
ghost use Rattle.state.specs.State.{is_bad_size, fresh_state};
ghost use Rattle.state.specs.Kept.{GivesState};

use super::{State, StateReport};
use text::frames::Refusal;
use text::frames::sizes::SCHEMES;

/// Whether a stack size lies outside 1 to 32.
pub fn bad_size(size: usize) -> bool
    ensures { result ≡ is_bad_size size }
{
    size == 0 || State::PLACES < size
}

// Each number served by its own scheme.
fn own_binding() -> [u8; SCHEMES]
    ensures { result ≡ own_binding }
{
    [1, 2, 3, 4, 5, 6, 7, 8, 9, 10, 11, 12, 13, 14, 15, 16]
}

impl State {
    /// A fresh state for a stack of that many places, 1 to 32: depth 1 at label 0 of scheme 1, each number served by its own scheme.
    /// Another size is refused with 14 and a state of nothing but 0.
    pub fn fresh(size: usize) -> StateReport
        ensures { GivesState (fresh_state size) result }
    {
        let places = [0u8; State::PLACES];
        let results = [0u8; State::SCHEMES];
        if bad_size(size) {
            let answer = Err(Refusal::BadSize);
            let state = State {
                size: 0,
                depth: 0,
                places,
                results,
                serving: [0u8; State::SCHEMES],
                numbers: places,
                servers: places,
            };
            return StateReport { answer, state };
        }
        let answer = Ok(0);
        let mut own = [0u8; State::PLACES];
        own[0] = 1;
        let serving = own_binding();
        let state = State {
            size: size as u8,
            depth: 1,
            places,
            results,
            serving,
            numbers: own,
            servers: own,
        };
        StateReport { answer, state }
    }
}
