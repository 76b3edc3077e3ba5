//! A law of places.

ghost use Rattle.m161_symbols.specs.Law.{NoSymbolsNoPlaces};

/// Without symbols no address has a place.
pub fn no_symbols_no_places()
    ensures { NoSymbolsNoPlaces }
{}
