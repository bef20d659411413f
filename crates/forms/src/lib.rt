#![tactic(auto)]

// No code: this crate holds what is shown of the rules over every valid syllable.
