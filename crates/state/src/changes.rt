// A state read and changed in place.
ghost use Rattle.std.specs.Prelude.{◌≡◌, ◌-◌, ◌≤◌, ◌<◌};
ghost use Rattle.results.specs.Results.{result_of};
ghost use Rattle.bindings.specs.Binding.{server_of, rebound_binding};
ghost use Rattle.state.specs.Changes.{with_place, with_opened, with_alone, with_serving, state_after_result};
ghost use Rattle.state.specs.Kept.{view, stored};

use crate::State;
use crate::layout::PLACES;
use text::frames::sizes::SCHEMES;

// Where number h stands among the results; 0 counts as 1.
fn result_place(h: u8) -> usize
    ensures { result ≡ h - 1 }
{
    if h == 0 {
        return 0;
    }
    (h - 1) as usize
}

impl State {
    /// Number h's result; one above 16 has none, which counts as false.
    pub fn result_of(&self, h: u8) -> bool
        ensures { result ≡ result_of h (view self.now).bits }
    {
        let k = result_place(h);
        if SCHEMES <= k {
            return false;
        }
        self.results[k] != 0
    }

    /// The result of a tick of a scheme that number h called: 0 keeps its bit, 2 writes 1, any other 0; a number above 16 has no bit.
    pub fn put_result(&mut self, res: u8, h: u8)
        ensures { view self.new ≡ state_after_result (view self.old) res h }
    {
        if res == 0 {
            return;
        }
        let k = result_place(h);
        if SCHEMES <= k {
            return;
        }
        self.results[k] = (res == 2) as u8;
    }

    /// The scheme that serves number h of 1 to 16.
    pub fn serving_at(&self, h: u8) -> u8
        requires low { 1 ≤ h }
        requires high { h ≤ SCHEMES }
        ensures { result ≡ server_of (view self.now).serving h }
    {
        self.serving[(h as usize) - 1]
    }

    /// Number h of 1 to 16 is served by that scheme.
    pub fn put_serving(&mut self, h: usize, scheme: u8)
        requires low { 1 ≤ h }
        requires high { h ≤ SCHEMES }
        ensures { view self.new ≡ with_serving (view self.old)
            (rebound_binding h scheme (view self.old).serving) }
    {
        self.serving[h - 1] = scheme;
    }

    /// Place k with that label.
    pub fn put_place(&mut self, k: usize, label: u8)
        requires { k < PLACES }
        ensures { view self.new ≡ with_place (view self.old) k label }
    {
        self.places[k] = label;
    }

    /// Place k with that label, number and server.
    pub fn open_place(&mut self, k: usize, label: u8, number: u8, server: u8)
        requires { k < PLACES }
        ensures { view self.new ≡ with_opened (view self.old) k label number server }
    {
        self.put_place(k, label);
        self.numbers[k] = number;
        self.servers[k] = server;
    }

    /// One scheme open, by its own number, at that label; every place above it is 0.
    pub fn put_alone(&mut self, label: u8, scheme: u8)
        ensures { view self.new ≡ with_alone (view self.old) label scheme }
    {
        self.places = [0u8; PLACES];
        self.numbers = [0u8; PLACES];
        self.servers = [0u8; PLACES];
        self.open_place(0, label, scheme, scheme);
        self.depth = 1;
    }

    /// Each result byte as it is stored: 0 or 1.
    pub fn tidy(&mut self)
        ensures { self.new ≡ stored (view self.old) }
    {
        for k in 0..SCHEMES {
            self.results[k] = (self.results[k] != 0) as u8;
        }
    }
}
