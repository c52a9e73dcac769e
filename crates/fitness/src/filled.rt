// Whether a place above the depth is filled: its label, its number or its server is not 0.
ghost use Rattle.std.specs.Prelude.{◌≡◌, ◌+◌, ◌-◌, ◌≤◌, ◌<◌, length, not, ◌==◌};
ghost use Rattle.words.specs.lists.Numbers.{any};
ghost use Rattle.state.specs.declared.layout.TheConstants.{PLACES};
ghost use Rattle.state.specs.Kept.{view};
ghost use Rattle.fitness.specs.Fitness.{is_filled_place};
ghost use Rattle.fitness.specs.inner.FitnessContracts.{is_set};

use state::State;

// Two bytes from k on as one number, the low one first.
fn two(bytes: &[u8], k: usize) -> u16
    requires { k + 1 < length bytes.now }
    ensures { not (result == 0) ≡ any (is_set bytes.now) k 2 }
{
    (bytes[k] as u16) + (bytes[k + 1] as u16) * 256
}

// Four bytes from k on as one number.
fn four(bytes: &[u8], k: usize) -> u32
    requires { k + 3 < length bytes.now }
    ensures { not (result == 0) ≡ any (is_set bytes.now) k 4 }
{
    (two(bytes, k) as u32) + (two(bytes, k + 2) as u32) * 65536
}

// Eight bytes from k on as one number.
fn eight(bytes: &[u8], k: usize) -> u64
    requires { k + 7 < length bytes.now }
    ensures { not (result == 0) ≡ any (is_set bytes.now) k 8 }
{
    (four(bytes, k) as u64) + (four(bytes, k + 4) as u64) * 4294967296
}

// Whether one of eight places from k on is filled.
fn any_filled_of_eight(state: &State, k: usize) -> bool
    requires { k + 7 < PLACES }
    ensures { result ≡ any (is_filled_place (view state.now)) k 8 }
{
    eight(&state.places, k) | eight(&state.numbers, k) | eight(&state.servers, k) != 0
}

// Whether place k is filled.
fn is_filled_place(state: &State, k: usize) -> bool
    requires { k < PLACES }
    ensures { result ≡ is_filled_place (view state.now) k }
{
    state.places[k] | state.numbers[k] | state.servers[k] != 0
}

// Whether some place from k on is filled, where these are few.
#[tactic(auto, using(crate::proofs::filled::FilledCases::turns))]
fn any_from(state: &State, from: usize) -> bool
    requires { from ≤ PLACES }
    ensures { result ≡ any (is_filled_place (view state.now)) from (PLACES - from) }
{
    for k in from..State::PLACES {
        if is_filled_place(state, k) {
            return true;
        }
    }
    false
}

/// Whether some place above the depth is filled. Eight at a time, the last eight where fewer are left, so that some may be looked at twice.
pub fn any_filled(state: &State) -> bool
    requires { (view state.now).depth ≤ PLACES }
    ensures { result ≡ any (is_filled_place (view state.now)) (view state.now).depth
        (PLACES - (view state.now).depth) }
{
    let depth = state.depth as usize;
    let last = State::PLACES - 8;
    if last < depth {
        return any_from(state, depth);
    }
    let mut k = depth;
    while k < last {
        if any_filled_of_eight(state, k) {
            return true;
        }
        k += 8;
    }
    any_filled_of_eight(state, last)
}
