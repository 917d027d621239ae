//! Joins are lifts.
ghost use Rattle.pending_laws.specs.Joins.{OneIsTheLift, TwoAreTheLift, OneFaultIsDomain, TwoFaultsAreDomain};

/// A join of arrays of one shape means what the lift of its function gives: the lift's array, or a fault at the
/// function's place exactly where the lift is a DOMAIN ERROR. The lift has no other error there.
pub fn joins_are_lifts()
    ensures one { OneIsTheLift }
    ensures two { TwoAreTheLift }
    ensures one_domain { OneFaultIsDomain }
    ensures two_domain { TwoFaultsAreDomain }
{}
