//! What legality by keys does not give: each law fails if a premise is dropped, and callers have no common order.
ghost use Rattle.history_local.specs.Refuted.{AnyInterleavingIsLegal, KeysMayBeJoined, CallersOrderIsNotLocal};

/// The laws need their premises. An interleaving of two legal histories that share a key may be illegal, and so may a
/// legal history after two keys got one name.
pub fn refutes_wider_laws()
    ensures interleaving { ¬ AnyInterleavingIsLegal }
    ensures renaming { ¬ KeysMayBeJoined }
{}

/// The order of each caller's own entries over several histories is not local. Two legal histories on keys that are
/// apart, and an order of each caller's entries in both, are such that no legal history has these orders.
pub fn callers_order_is_not_local()
    ensures { CallersOrderIsNotLocal }
{}
