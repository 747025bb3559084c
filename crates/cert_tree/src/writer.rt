ghost use Rattle.std.specs.Prelude.{◌≡◌, ◌<◌, ◌^◌, ◌++◌, ◌∷◌, [], OnOk, OnErr, All, map};
ghost use Rattle.fleet_base.specs.Bytes.{field, AppendsFront, text_of_lines};
ghost use Rattle.cert_tree.specs.declared.node.Node.TheVariants.{Bound, Branch, Cyclic, Force};
ghost use Rattle.cert_tree.specs.CertText.{IsWritten, IsCertText, HasNumbers, HavePairNumbers, IsNumbered, cert_text, node_lines, path_line, pair_fields, pair_numbers, side_word};

use crate::{Cert, CertPath, Node};
use fleet_base::{Memory, PairId, Side, Text, push_bytes, push_field};

/// Appends the text of a certificate: the lines of its nodes, each with its LF. `read_cert` reads the same nodes from it.
/// For want of memory some of it is missing at the end.
pub fn write_cert(cert: &Cert, out: &mut Text) -> Result<(), Memory>
    requires { All IsWritten cert.now }
    ensures ok { OnOk result (out.new ≡ out.old ++ cert_text cert.now) }
    ensures text { OnOk result (IsCertText (cert_text cert.now) cert.now) }
    ensures err { OnErr result (AppendsFront out.old out.new (cert_text cert.now)) }
{
    for node in cert.as_slice() {
        push_node(out, node)?;
    }
    Ok(())
}

fn push_node(out: &mut Text, node: &Node) -> Result<(), Memory>
    ensures ok { OnOk result (out.new ≡ out.old ++ text_of_lines (node_lines node.now)) }
    ensures numbers { OnOk result (HasNumbers node.now) }
    ensures err { OnErr result (AppendsFront out.old out.new (text_of_lines (node_lines node.now))) }
{
    match node {
        Node::Branch { pair } => push_branch(out, *pair),
        Node::Force { pair, side, cycle } => push_force(out, *pair, *side, cycle.as_slice()),
        Node::Cyclic { cycle } => push_cyclic(out, cycle.as_slice()),
        Node::Bound { paths } => push_bound(out, paths.as_slice()),
        Node::OpenLeaf { least } => push_line(out, b"cert open", *least),
    }
}

fn push_branch(out: &mut Text, pair: PairId) -> Result<(), Memory>
    ensures ok { OnOk result (out.new ≡ out.old ++ text_of_lines (node_lines (Branch pair))) }
    ensures numbers { OnOk result (HasNumbers (Branch pair)) }
    ensures err { OnErr result (AppendsFront out.old out.new (text_of_lines (node_lines (Branch pair)))) }
{
    push_line(out, b"cert branch", u64::from(pair.0))
}

fn push_force(out: &mut Text, pair: PairId, side: Side, cycle: &[PairId]) -> Result<(), Memory>
    ensures ok { OnOk result (out.new ≡ out.old ++ text_of_lines (node_lines (Force pair side cycle.now))) }
    ensures numbers { OnOk result (HasNumbers (Force pair side cycle.now)) }
    ensures err { OnErr result (AppendsFront out.old out.new (text_of_lines (node_lines (Force pair side cycle.now)))) }
{
    push_words(out, b"cert force", u64::from(pair.0))?;
    push_bytes(out, side_bytes(side))?;
    push_pairs(out, cycle)
}

fn push_cyclic(out: &mut Text, cycle: &[PairId]) -> Result<(), Memory>
    ensures ok { OnOk result (out.new ≡ out.old ++ text_of_lines (node_lines (Cyclic cycle.now))) }
    ensures numbers { OnOk result (HasNumbers (Cyclic cycle.now)) }
    ensures err { OnErr result (AppendsFront out.old out.new (text_of_lines (node_lines (Cyclic cycle.now)))) }
{
    push_bytes(out, b"cert cyclic")?;
    push_pairs(out, cycle)
}

fn push_bound(out: &mut Text, paths: &[CertPath]) -> Result<(), Memory>
    ensures ok { OnOk result (out.new ≡ out.old ++ text_of_lines (node_lines (Bound paths.now))) }
    ensures numbers { OnOk result (HasNumbers (Bound paths.now)) }
    ensures err { OnErr result (AppendsFront out.old out.new (text_of_lines (node_lines (Bound paths.now)))) }
{
    push_bytes(out, b"cert bound\n")?;
    push_paths(out, paths)
}

fn push_paths(out: &mut Text, paths: &[CertPath]) -> Result<(), Memory>
    ensures ok { OnOk result (out.new ≡ out.old ++ text_of_lines (map path_line paths.now)) }
    ensures numbers { OnOk result (All IsNumbered paths.now) }
    ensures err { OnErr result (AppendsFront out.old out.new (text_of_lines (map path_line paths.now))) }
{
    for path in paths {
        push_path(out, path)?;
    }
    Ok(())
}

fn push_path(out: &mut Text, path: &CertPath) -> Result<(), Memory>
    ensures ok { OnOk result (out.new ≡ out.old ++ (path_line path.now ++ 10 ∷ [])) }
    ensures numbers { OnOk result (IsNumbered path.now) }
    ensures err { OnErr result (AppendsFront out.old out.new (path_line path.now ++ 10 ∷ [])) }
{
    let robot = path.robot;
    push_words(out, b"cert path", u64::from(robot))?;
    push_pairs(out, path.pairs.as_slice())
}

/// Appends the line of these words and a number.
fn push_line(out: &mut Text, words: &[u8], number: u64) -> Result<(), Memory>
    ensures ok { OnOk result (out.new ≡ out.old ++ (words.now ++ field number ++ 10 ∷ [])) }
    ensures err { OnErr result (AppendsFront out.old out.new (words.now ++ field number ++ 10 ∷ [])) }
{
    push_words(out, words, number)?;
    out.push(b'\n')
}

/// Appends these words and a number.
fn push_words(out: &mut Text, words: &[u8], number: u64) -> Result<(), Memory>
    ensures ok { OnOk result (out.new ≡ out.old ++ (words.now ++ field number)) }
    ensures err { OnErr result (AppendsFront out.old out.new (words.now ++ field number)) }
{
    push_bytes(out, words)?;
    push_field(out, number)
}

/// Appends how many pairs there are, their numbers, and the line's end.
fn push_pairs(out: &mut Text, pairs: &[PairId]) -> Result<(), Memory>
    ensures ok { OnOk result (out.new ≡ out.old ++ (pair_fields pairs.now ++ 10 ∷ [])) }
    ensures numbers { OnOk result (HavePairNumbers pairs.now) }
    ensures err { OnErr result (AppendsFront out.old out.new (pair_fields pairs.now ++ 10 ∷ [])) }
{
    push_field(out, pairs.len() as u64)?;
    push_pair_numbers(out, pairs)?;
    out.push(b'\n')
}

fn push_pair_numbers(out: &mut Text, pairs: &[PairId]) -> Result<(), Memory>
    ensures ok { OnOk result (out.new ≡ out.old ++ pair_numbers pairs.now) }
    ensures numbers { OnOk result (All (λ q. q.0 < 2 ^ 32) pairs.now) }
    ensures err { OnErr result (AppendsFront out.old out.new (pair_numbers pairs.now)) }
{
    for pair in pairs {
        push_field(out, u64::from(pair.0))?;
    }
    Ok(())
}

/// A side's word behind a space.
fn side_bytes(side: Side) -> &'static [u8]
    ensures { result.now ≡ side_word side }
{
    match side {
        Side::Lower => b" lower",
        Side::Higher => b" higher",
    }
}
