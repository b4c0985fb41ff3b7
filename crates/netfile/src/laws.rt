//! What is proved of the meaning of a file: the function does nothing, and its contract is the laws.

ghost use Rattle.netfile.specs.Checks.{DeniedByFirst, AcceptedByNone, LayersByNumber};
ghost use Rattle.netfile.specs.Networks.{AllHold};

/// For every list of bytes, the first fault is that of the first check that applies, at the lowest place at which it
/// does, and by the layer of its number; there is none exactly where no check applies; and then each site and line is
/// what the bytes at its place say.
pub fn meaning_laws()
    ensures denied { DeniedByFirst }
    ensures accepted { AcceptedByNone }
    ensures layers { LayersByNumber }
    ensures networks { AllHold }
{}
