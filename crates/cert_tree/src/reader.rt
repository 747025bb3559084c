ghost use Rattle.std.specs.Prelude.{◌≡◌, ◌<◌, ◌^◌, ◌++◌, ◌∷◌, [], ◌↔◌, List, length, IfOk, IsTrue, OnOk};
ghost use Rattle.cert_tree.specs.declared.node.Node.{Node};
ghost use Rattle.cert_tree.specs.CertText.{IsCertText, AreCertLines, cert_lines};
ghost use Rattle.cert_tree.specs.CertFaults.{CertFaultIs, ReadsAs};
ghost use Rattle.cert_tree.specs.Reading.{AddsPath, HasNextRobot, OnMalformed};

use crate::fault::{CertError, LineFault};
use crate::line::{Line, read_line};
use crate::lines::next_line;
use crate::{Cert, CertPath, Node};
use std::alloc::Global;

/// Reads the text of a certificate, line by line. The empty text is the certificate without nodes.
///
/// `Fault` comes exactly where the text is not in the grammar, with the first line that leaves it. A last line without
/// its LF leaves it too.
pub fn read_cert(alloc: Global, lines: &[u8]) -> Result<Cert, CertError>
    requires { length lines.now < 2 ^ 32 }
    ensures read { IfOk result (IsCertText lines.now) }
    ensures only { (nodes : List Node) → IsCertText lines.now nodes → ReadsAs nodes result }
    ensures fault { CertFaultIs lines.now result }
{
    let mut nodes = Vec::new(alloc);
    let mut above = 0;
    let mut rest = lines;
    while let Some((line, after)) = next_line(rest) {
        if let Err(fault) = add_line(alloc, &mut nodes, line) {
            return Err(fault.at(above + 1));
        }
        above += 1;
        rest = after;
    }
    if rest.is_empty() {
        Ok(Cert::from_vec(nodes))
    } else {
        Err(CertError::Fault { line: above + 1 })
    }
}

/// The nodes with one more line.
fn add_line(alloc: Global, nodes: &mut Vec<Node>, line: &[u8]) -> Result<(), LineFault>
    requires { AreCertLines (cert_lines nodes.old.items) nodes.old.items }
    ensures read { OnOk result (AreCertLines (cert_lines nodes.old.items ++ line.now ∷ []) nodes.new.items) }
    ensures malformed { OnMalformed result ((more : List Node) → AreCertLines (cert_lines nodes.old.items ++ line.now ∷ []) more → ⊥) }
{
    match read_line(alloc, line)? {
        Line::Node(node) => add_node(nodes, node),
        Line::Path(path) => add_path(nodes, path),
    }
}

fn add_node(nodes: &mut Vec<Node>, node: Node) -> Result<(), LineFault>
    ensures read { OnOk result (nodes.new.items ≡ nodes.old.items ++ node ∷ []) }
    ensures malformed { OnMalformed result ⊥ }
{
    match nodes.push(node) {
        Ok(()) => Ok(()),
        Err(_) => Err(LineFault::Memory),
    }
}

/// The last node is a Bound with one more path, of a later robot.
fn add_path(nodes: &mut Vec<Node>, path: CertPath) -> Result<(), LineFault>
    ensures read { OnOk result (AddsPath nodes.old.items path nodes.new.items) }
    ensures malformed { OnMalformed result ((more : List Node) → AddsPath nodes.old.items path more → ⊥) }
{
    let Some(Node::Bound { mut paths }) = nodes.pop() else {
        return Err(LineFault::Malformed);
    };
    if !has_next_robot(paths.as_slice(), &path) {
        return Err(LineFault::Malformed);
    }
    paths.push(path)?;
    add_node(nodes, Node::Bound { paths })
}

/// Whether the path's robot comes after that of the last of the paths.
fn has_next_robot(paths: &[CertPath], path: &CertPath) -> bool
    ensures { IsTrue result ↔ HasNextRobot paths.now path.now.robot }
{
    match paths.last() {
        Some(last) => last.robot < path.robot,
        None => true,
    }
}
