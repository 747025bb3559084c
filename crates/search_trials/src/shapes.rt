// The shape of a certificate: its nodes without cycles and paths.
use cert_tree::Node;
use fleet_base::{PairId, Side};
use std::alloc::Global;
use std::test::Fail;

/// A node without its cycle or paths.
#[derive(Clone, Copy, Debug, PartialEq, Eq)]
pub enum Shape {
    Branch(PairId),
    Force(PairId, Side),
    Cyclic,
    Bound,
    OpenLeaf(u64),
}

/// The shapes of these nodes, without what is forced just before a Cyclic: forcing may stop once there is a cycle.
pub fn shapes_of(alloc: Global, nodes: &[Node]) -> Result<Vec<Shape>, Fail> {
    let mut shapes = Vec::new(alloc);
    let mut forced = Vec::new(alloc);
    for node in nodes {
        match node {
            Node::Force { pair, side, .. } => forced.push(Shape::Force(*pair, *side))?,
            node => {
                add(&mut shapes, &forced, shape_of(node))?;
                forced.clear();
            }
        }
    }
    Ok(shapes)
}

fn shape_of(node: &Node) -> Shape {
    match node {
        Node::Branch { pair } => Shape::Branch(*pair),
        Node::Force { pair, side, .. } => Shape::Force(*pair, *side),
        Node::Cyclic { .. } => Shape::Cyclic,
        Node::Bound { .. } => Shape::Bound,
        Node::OpenLeaf { least } => Shape::OpenLeaf(*least),
    }
}

/// Appends a shape, and before it what was forced, unless it is a Cyclic.
pub fn add(shapes: &mut Vec<Shape>, forced: &[Shape], shape: Shape) -> Result<(), Fail> {
    if shape != Shape::Cyclic {
        for force in forced {
            shapes.push(*force)?;
        }
    }
    shapes.push(shape)?;
    Ok(())
}
