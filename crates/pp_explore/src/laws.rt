//! The law of leaves that are added.
ghost use Rattle.pp_explore.specs.Exploring.{AddedAreJoined};

/// Leaves that are added to a finding one after another are joined to it as one. So what a search gathers from
/// nothing is the finding of the leaves that it met.
pub fn added_leaves_are_joined()
    ensures { AddedAreJoined }
{}
