//! What a session is, and which value each result of its program has, as definitions.
#![tactic(auto)]
