//! What a query's values stand for in the definitions of a text.
#![tactic(auto)]
