ghost use Rattle.std.specs.Prelude.{◌≡◌, ◌++◌, ℕ, List, IfOk, IfSome, IfNone, codes};
ghost use Rattle.fleet_base.specs.declared.order.Side.{Side};
ghost use Rattle.cert_tree.specs.CertText.{side_word};
ghost use Rattle.cert_tree.specs.declared.line.Line.{Line};
ghost use Rattle.cert_tree.specs.Reading.{IsLine, OnMalformed};

use crate::fault::LineFault;
use crate::fields::{behind, number, pairs, small_number};
use crate::{CertPath, Node, PathList};
use fleet_base::{PairId, Side};
use std::alloc::Global;

/// What a line says: a node, or a path of the Bound above it. Where the line is `cert bound` the node has no path yet.
pub enum Line {
    Node(Node),
    Path(CertPath),
}

/// Reads a line, without its line end.
pub fn read_line(alloc: Global, line: &[u8]) -> Result<Line, LineFault>
    ensures read { IfOk result (IsLine line.now) }
    ensures malformed { OnMalformed result ((said : Line) → IsLine line.now said → ⊥) }
{
    if let Some(rest) = behind(line, b"cert branch") {
        read_branch(rest)
    } else if let Some(rest) = behind(line, b"cert force") {
        read_force(alloc, rest)
    } else if let Some(rest) = behind(line, b"cert cyclic") {
        read_cyclic(alloc, rest)
    } else if let Some(rest) = behind(line, b"cert bound") {
        read_bound(alloc, rest)
    } else if let Some(rest) = behind(line, b"cert path") {
        read_path(alloc, rest)
    } else if let Some(rest) = behind(line, b"cert open") {
        read_open(rest)
    } else {
        Err(LineFault::Malformed)
    }
}

fn read_branch(text: &[u8]) -> Result<Line, LineFault>
    ensures read { IfOk result (IsLine (codes "cert branch" ++ text.now)) }
    ensures malformed { OnMalformed result ((said : Line) → IsLine (codes "cert branch" ++ text.now) said → ⊥) }
{
    let Some((pair, rest)) = small_number(text) else {
        return Err(LineFault::Malformed);
    };
    if rest.is_empty() {
        Ok(Line::Node(Node::Branch { pair: PairId(pair) }))
    } else {
        Err(LineFault::Malformed)
    }
}

fn read_force(alloc: Global, text: &[u8]) -> Result<Line, LineFault>
    ensures read { IfOk result (IsLine (codes "cert force" ++ text.now)) }
    ensures malformed { OnMalformed result ((said : Line) → IsLine (codes "cert force" ++ text.now) said → ⊥) }
{
    let Some((pair, behind_pair)) = small_number(text) else {
        return Err(LineFault::Malformed);
    };
    let Some((side, behind_side)) = read_side(behind_pair) else {
        return Err(LineFault::Malformed);
    };
    let cycle = pairs(alloc, behind_side, 2)?;
    Ok(Line::Node(Node::Force {
        pair: PairId(pair),
        side,
        cycle,
    }))
}

/// The side whose word stands behind the space that a text begins with, and the rest.
fn read_side(text: &[u8]) -> Option<(Side, &[u8])>
    ensures some { IfSome result (λ x. text.now ≡ side_word x.0 ++ x.1.now) }
    ensures none { IfNone result ((side : Side) (rest : List ℕ) → text.now ≡ side_word side ++ rest → ⊥) }
{
    if let Some(rest) = behind(text, b" lower") {
        Some((Side::Lower, rest))
    } else if let Some(rest) = behind(text, b" higher") {
        Some((Side::Higher, rest))
    } else {
        None
    }
}

fn read_cyclic(alloc: Global, text: &[u8]) -> Result<Line, LineFault>
    ensures read { IfOk result (IsLine (codes "cert cyclic" ++ text.now)) }
    ensures malformed { OnMalformed result ((said : Line) → IsLine (codes "cert cyclic" ++ text.now) said → ⊥) }
{
    let cycle = pairs(alloc, text, 2)?;
    Ok(Line::Node(Node::Cyclic { cycle }))
}

fn read_bound(alloc: Global, text: &[u8]) -> Result<Line, LineFault>
    ensures read { IfOk result (IsLine (codes "cert bound" ++ text.now)) }
    ensures malformed { OnMalformed result ((said : Line) → IsLine (codes "cert bound" ++ text.now) said → ⊥) }
{
    if text.is_empty() {
        Ok(Line::Node(Node::Bound {
            paths: PathList::new(alloc),
        }))
    } else {
        Err(LineFault::Malformed)
    }
}

fn read_path(alloc: Global, text: &[u8]) -> Result<Line, LineFault>
    ensures read { IfOk result (IsLine (codes "cert path" ++ text.now)) }
    ensures malformed { OnMalformed result ((said : Line) → IsLine (codes "cert path" ++ text.now) said → ⊥) }
{
    let Some((robot, behind_robot)) = small_number(text) else {
        return Err(LineFault::Malformed);
    };
    let pairs = pairs(alloc, behind_robot, 1)?;
    Ok(Line::Path(CertPath { robot, pairs }))
}

fn read_open(text: &[u8]) -> Result<Line, LineFault>
    ensures read { IfOk result (IsLine (codes "cert open" ++ text.now)) }
    ensures malformed { OnMalformed result ((said : Line) → IsLine (codes "cert open" ++ text.now) said → ⊥) }
{
    let Some((least, rest)) = number(text) else {
        return Err(LineFault::Malformed);
    };
    if rest.is_empty() {
        Ok(Line::Node(Node::OpenLeaf { least }))
    } else {
        Err(LineFault::Malformed)
    }
}
