use fleet_base::{Items, PairId, PairList, Side};

/// The path of a robot: a walk over the edges of these pairs that ends with the robot's last visit.
#[derive(Debug, Drop)]
pub struct CertPath {
    pub robot: u32,
    pub pairs: PairList,
}

/// Paths, by their robots.
pub type PathList = Items<CertPath>;

/// A node of a certificate.
#[derive(Debug, Drop)]
pub enum Node {
    /// The tree in which the pair has its side `Lower` follows, and then the one in which it has `Higher`.
    Branch {
        pair: PairId,
    },
    /// The pair has this side in the tree that follows, since the other side closes the cycle.
    Force {
        pair: PairId,
        side: Side,
        cycle: PairList,
    },
    /// The decisions on the way have this cycle.
    Cyclic {
        cycle: PairList,
    },
    /// The paths show that no schedule under the decisions on the way is cheaper.
    Bound {
        paths: PathList,
    },
    /// The search stopped here; the relaxed cost of the decisions on the way is `least`.
    OpenLeaf {
        least: u64,
    },
}

/// The nodes of a certificate in preorder.
pub type Cert = Items<Node>;
