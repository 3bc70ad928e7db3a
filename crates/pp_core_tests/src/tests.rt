//! A space of sets whose tasks are the nodes of a tree, reports in any order, works, and findings.
mod cores;
mod findings;
mod reports;
mod schedules;
mod sets;
mod works;
