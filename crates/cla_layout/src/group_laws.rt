//! Laws of codes and tuples, proved once for every kind of group: what an operator asks of all rows,
//! it may ask of the dictionary.

ghost use Rattle.cla_layout.specs.GroupLaws.{SumsRegroup, WeightedSumsRegroup, ExtremesRegroup, FirstPlacesRegroup};
ghost use Rattle.cla_layout.specs.GroupLaws.{FaultsRegroup};

/// A sum over rows is one over tuples, each as often as it occurs (PVLDB 9(12), section 3).
pub fn sums_regroup()
    ensures { SumsRegroup }
{}

/// A weighted sum over rows is one over tuples, each with the weights of its rows gathered.
pub fn weighted_sums_regroup()
    ensures { WeightedSumsRegroup }
{}

/// The least or the greatest over rows is that over tuples.
pub fn extremes_regroup()
    ensures { ExtremesRegroup }
{}

/// The first cell that fails is found among the first rows of the tuples.
pub fn first_places_regroup()
    ensures { FirstPlacesRegroup }
{}

/// No cell fails exactly where no tuple does.
pub fn faults_regroup()
    ensures { FaultsRegroup }
{}
