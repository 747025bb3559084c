/// Why a certificate is refused. At a node that fails the first of these words that fits is given.
#[derive(Clone, Copy, Debug, PartialEq, Eq)]
pub enum NoWhy {
    /// The tree ends too early, at the number of nodes; or a node stands after its end.
    Shape,
    /// The pair of a Branch or a Force is not open, is decided, or does not exist.
    Pair,
    /// A cycle is none.
    Cycle,
    /// A path is none, or the paths name an unknown robot.
    Path,
    /// The lengths of a Bound add up to less than the cost.
    Sum,
    /// An open leaf in an optimal tree, or one that breaks its rule.
    Leaf,
    /// In a spent tree a Branch whose decision is cyclic, whose relaxed cost is not below the cost or is above the least
    /// cost left, or of whose pair the least schedule obeys an edge.
    Needed,
    /// A Branch pair's group is not open, or was branched on above.
    Group,
    /// Of the whole tree: not as many branches as the budget, or no open leaf.
    Count,
    /// Of the whole tree: the least cost left is not that of its open leaves.
    Least,
    /// The switches of a block are not those of the entry.
    Order,
    /// The cost is not that of the entry's new order.
    Cost,
}

/// What a checker says of a certificate.
#[derive(Clone, Copy, Debug, PartialEq, Eq)]
pub enum Verdict {
    Yes,
    /// The first node in preorder that fails, and why. The number of nodes stands for the whole tree.
    No { node: u32, why: NoWhy },
}
