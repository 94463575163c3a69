//! The laws: what the algorithms read, against every transcript that would have done in their place.

ghost use Rattle.algorithm_theory.specs.Optimal.{TaStopsInTime, TaCostIsBounded, NraStopsInTime, TaIsNearBest, NraIsNearShallowest, BoundsAreMet};

/// On each table, the threshold algorithm reads no deeper than the objects that a tame transcript sees
/// before it fixes an answer over the table's objects, and k more.
pub fn ta_stops_in_time()
    ensures { TaStopsInTime }
{}

/// Its cost times the cost of a sorted access is at most what one depth costs times what such a
/// transcript and k sorted accesses cost.
pub fn ta_cost_is_bounded()
    ensures { TaCostIsBounded }
{}

/// On each table, the algorithm without random access reads no deeper than k, or than each transcript
/// without random access that fixes an answer over the table's objects.
pub fn nra_stops_in_time()
    ensures { NraStopsInTime }
{}

/// A transcript that is the threshold algorithm's run on every table that agrees with it is bounded, on
/// each of them, by every tame transcript that fixes an answer there.
pub fn ta_run_is_near_best()
    ensures { TaIsNearBest }
{}

/// A transcript that is the run without random access on every table that agrees with it is, on each
/// of them, no deeper than k or than every transcript without random access that fixes an answer there.
pub fn nra_run_is_near_shallowest()
    ensures { NraIsNearShallowest }
{}

/// For every k there is a table of k objects, all of which are fixed before any access, on which both
/// algorithms read k deep: neither bound on the depths can be lowered.
pub fn bounds_are_met()
    ensures { BoundsAreMet }
{}
