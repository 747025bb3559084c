// What is handed through a session.
use fleet_base::SoundPlan;
use fleet_recovery::Papers;
use plan_graph::PlanGraph;
use std::alloc::Global;

/// What a session is set to.
#[derive(Clone, Copy, Debug, PartialEq, Eq)]
pub struct Settings {
    /// How many nodes a search for a cheaper order may branch on after a delay.
    pub budget: u64,
    /// That certificates are not sent.
    pub quiet: bool,
    /// The greatest length of a side of the journal, in bytes.
    pub side_limit: u64,
    /// How many bytes of input are taken at most.
    pub input_limit: u64,
}

/// What stays the same through a session: where its memory comes from, the plan with its graph and its papers, and the settings.
#[derive(Clone, Copy)]
pub struct Session<'s> {
    pub alloc: Global,
    pub graph: &'s PlanGraph,
    pub plan: &'s SoundPlan,
    pub settings: &'s Settings,
    pub papers: &'s Papers<'s>,
}
