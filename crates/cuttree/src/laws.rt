//! What is proved of trees over any submodular count: the function does nothing, and its contract is the law.

ghost use Rattle.cuttree.specs.Laws.{Step, LightestIsLeast};

/// A least set between two places keeps the ties across it; in a tree grown by such sets the lightest edge on the way
/// between two places is the least count of a set that parts them.
pub fn tree_laws()
    ensures step { Step }
    ensures tree { LightestIsLeast }
{}
