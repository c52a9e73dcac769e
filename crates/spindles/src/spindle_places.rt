// The places that four spindles have taken, over every list of calls: a theorem, and no code.

ghost use Rattle.spindles.specs.spindle_places.PlacesBalance.{PlacesCounted};

/// After every list of calls from four fresh states, rebindings among them, the record is the sum of the depths: 4 and one more for each
/// call made, less what returns and drops gave back, and never more than 64.
pub fn places_taken_balance()
    ensures balance { PlacesCounted }
{}
