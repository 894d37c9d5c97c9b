//! Laws of flow networks. The functions do nothing; each contract is the law.

ghost use Rattle.flow_network.specs.Laws.{BalancedIsLeast, PushKeepsNetwork, RaiseKeepsNetwork};

/// A push or a raise, as its call allows it, keeps the reduced costs of at least 0, that the excesses sum to 0, and that
/// flow is neither created nor lost.
pub fn moves_keep_networks()
    ensures pushed { PushKeepsNetwork }
    ensures raised { RaiseKeepsNetwork }
{}

/// If no excess is left, no flow from the same start that leaves none costs less
/// (Ahuja, Magnanti and Orlin 1993, "Network Flows", section 9.3).
pub fn balanced_is_least()
    ensures { BalancedIsLeast }
{}
