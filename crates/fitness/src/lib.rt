//! Whether a state fits the image that a prepared table holds: refusal 15 (`fitting`).
//! Here the numbers of one place are tried; `fit_places` tries the open places from the bottom up, `filled` those above the depth.
#![tactic(auto)]

ghost use Rattle.std.specs.Prelude.{◌≡◌, ◌≤◌, ◌&&◌, ◌||◌, not, ◌==◌, nat_le};
ghost use Rattle.fitness.specs.inner.FitnessContracts.{is_astray, is_own, called_by, is_miscalled, is_misserved};

mod filled;
mod fit_places;
pub mod fitting;

use image::layout::{FUNCTION_CALL, OPERATION_CALL};

/// Whether a label of that tick kind may not be kept under another: only a call may.
pub fn calls_none(kind: u8) -> bool
    ensures { result ≡ not (kind == OPERATION_CALL || kind == FUNCTION_CALL) }
{
    match kind {
        OPERATION_CALL..=FUNCTION_CALL => false,
        _ => true,
    }
}

/// Whether label l may not stand where one of that scheme is open: it is of another scheme, and no return.
pub fn is_astray(owner: u8, scheme: u8, l: u8) -> bool
    ensures { result ≡ is_astray owner scheme l }
{
    if owner == scheme {
        return false;
    }
    l != 1
}

/// Whether number and server of a place are both that scheme.
pub fn is_own(number: u8, server: u8, scheme: u8) -> bool
    ensures { result ≡ is_own number server scheme }
{
    if number != scheme {
        return false;
    }
    server == scheme
}

/// Whether a bottom of that owner is of scheme 1, by its own number.
pub fn is_first(owner: u8, number: u8, server: u8) -> bool
    ensures { result ≡ (owner == 1 && is_own number server 1) }
{
    if owner != 1 {
        return false;
    }
    is_own(number, server, 1)
}

/// Whether n is of 2 to most.
// one comparison: what is below 2 wraps to above any most; in 32 bits, which a small processor need not cut to a byte
pub fn is_two_to(most: u8, n: u8) -> bool
    requires { 1 ≤ most }
    ensures { result ≡ (nat_le 2 n && nat_le n most) }
{
    (n as u32).wrapping_sub(2) < (most as u32) - 1
}

/// Whether a number is not the one called, by the byte that names it: one above H names none.
// no accepted image has such a byte, and to take it for 0 first costs more
pub fn is_uncalled(schemes: u8, number: u8, called: u8) -> bool
    ensures { result ≡ not (number == called_by schemes called) }
{
    if number == called {
        return schemes < called;
    }
    if schemes < called {
        return number != 0;
    }
    true
}

/// Whether the number or the server of a place above a call is wrong: the number is not the one called, or the server is not of 2 to H.
pub fn is_miscalled(schemes: u8, number: u8, called: u8, server: u8) -> bool
    requires { 1 ≤ schemes }
    ensures { result ≡ is_miscalled schemes number (called_by schemes called) server }
{
    if is_uncalled(schemes, number, called) {
        return true;
    }
    !is_two_to(schemes, server)
}

/// Whether number h of 2 up may not be served by scheme k, with that many schemes and that handler.
// that of its own number always may, and most often does, so it is looked for first
pub fn is_misserved(schemes: u8, handler: u8, h: u8, k: u8) -> bool
    requires { 2 ≤ h }
    ensures { result ≡ is_misserved schemes handler h k }
{
    if k == h {
        return false;
    }
    if schemes < h {
        return true;
    }
    if h == handler {
        return true;
    }
    if k < 2 {
        return true;
    }
    schemes < k
}
