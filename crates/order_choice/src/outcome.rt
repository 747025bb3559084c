use cert_tree::Cert;

/// What a certificate shows of the cost of an order, in ticks.
#[derive(Debug, Drop)]
pub enum Outcome {
    /// No lawful schedule is cheaper.
    Optimal { cert: Cert },
    /// The budget is spent. The search may leave a cheaper order unfound; no lawful schedule is cheaper than `least`.
    Spent { cert: Cert, least: u64 },
}
