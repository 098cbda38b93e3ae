ghost use Rattle.together.specs.Committees.{CommitteesFair};

/// Every accepted call of FA1 over bins gives a fair committee: each validator holds its share of the seats, at most two more, and none more
/// where the share is whole; no bin is empty, and the pieces in the bins are the stakes that the fixed seats leave.
// By a file: tried by `using` of its lemma, where the search did not close.
pub fn committees_are_fair()
    ensures { CommitteesFair }
{}
