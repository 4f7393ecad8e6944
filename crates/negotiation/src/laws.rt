//! What holds of a negotiation whatever its driver writes. The bodies are empty: each contract is a theorem.

ghost use Rattle.negotiation.specs.History.{OnlyOfferedFeaturesSettle, OnlyResetClears};

/// Whatever happens after reset, FEATURES_OK is set only for features that are all offered and have
/// VERSION_1 (2.2.2, 6.2).
pub fn only_offered_features_settle()
    ensures { OnlyOfferedFeaturesSettle }
{}

/// Whatever happens but a reset, no status bit is cleared and settled features stay (2.1.1, 3.1.1).
pub fn only_reset_clears()
    ensures { OnlyResetClears }
{}
