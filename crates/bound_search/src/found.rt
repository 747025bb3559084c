use longest_path::Live;
use order_choice::Outcome;
use plan_graph::Oriented;

/// What a search found.
#[derive(Drop)]
pub struct Found<'g> {
    /// The order, as a view that gives each pair a side.
    pub view: Oriented<'g>,
    /// What it costs, in ticks.
    pub cost: u64,
    /// What is known of that cost.
    pub outcome: Outcome,
    /// The schedule that was asked for every decision of the search.
    pub live: Live<'g>,
}
