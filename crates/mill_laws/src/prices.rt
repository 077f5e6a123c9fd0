ghost use Rattle.mill_laws.specs.PriceLaws.{WeakDuality, SweptPricesAreValid};
ghost use Rattle.mill_laws.specs.PriceLaws.{SweptPricesAreWorthNoLess, AscentPricesAreValid};
ghost use Rattle.mill_laws.specs.PriceLaws.{AscentWorthIsTheirs, SweptPricesStayWithin};
ghost use Rattle.mill_laws.specs.PriceLaws.{AscentPricesStayWithin};

/// 60 times the loss of each legal plan under a path is at least what valid prices are worth
/// there.
pub fn weak_duality()
    ensures { WeakDuality }
{}

/// Swept prices are valid, and worth no less than those before the sweep.
pub fn swept_prices()
    ensures valid { SweptPricesAreValid }
    ensures worth { SweptPricesAreWorthNoLess }
{}

/// The ascent's prices are valid, and the ascent's worth is theirs.
pub fn ascent_prices()
    ensures valid { AscentPricesAreValid }
    ensures worth { AscentWorthIsTheirs }
{}

/// Where each order fits a slab alone, the prices of the ascent and of its sweeps stay within the
/// limits of a price.
pub fn prices_stay_within()
    ensures swept { SweptPricesStayWithin }
    ensures ascent { AscentPricesStayWithin }
{}
