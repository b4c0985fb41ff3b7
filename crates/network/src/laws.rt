//! What is proved of the words of the network: each function here does nothing, and its contract is a law.

ghost use Rattle.network.specs.Laws.{Bounding, Attained, Symmetric, ByThird, Submodular, Shared, GroupsListed, ValueIsLevel, ReadBack, Routed, Withstood};

/// The level of two places is the fewest free lines that cross a side with one of them; it does not depend on their
/// order, and is at least the smaller of their levels with any third place. Two sides are crossed by at least as many
/// free lines as their intersection and their union.
pub fn level_laws()
    ensures bounding { Bounding }
    ensures attained { Attained }
    ensures symmetric { Symmetric }
    ensures third { ByThird }
    ensures submodular { Submodular }
{}

/// Two places share a group at a level where theirs is as high, and the group list says which do.
pub fn group_laws()
    ensures shared { Shared }
    ensures listed { GroupsListed }
{}

/// The value that an engine answers is the level.
pub fn flow_laws()
    ensures value { ValueIsLevel }
{}

/// Routes are read back as they were written; k separate routes of free lines make a level of k or more; and the level
/// is k or more exactly where fewer than k lines, taken away, always leave a route.
pub fn route_laws()
    ensures read_back { ReadBack }
    ensures routed { Routed }
    ensures withstood { Withstood }
{}
