//! What the walks say: laws, on a function that does nothing.

ghost use Rattle.type_prefixes.specs.Laws.{SummariesGiveCalls, WalksGiveDepths, WalksGiveDepthsOfBodies};

/// One walk over each body gives how deep nodes are bound with all calls opened.
pub fn walks_open_calls()
    ensures calls { SummariesGiveCalls }
    ensures expressions { WalksGiveDepths }
    ensures bodies { WalksGiveDepthsOfBodies }
{}
