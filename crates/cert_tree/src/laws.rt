//! Laws of the text of certificates. Each function does nothing: its contract is the law.
ghost use Rattle.std.specs.Prelude.{◌≡◌, ℕ, List, All};
ghost use Rattle.fleet_base.specs.Bytes.{whole_lines};
ghost use Rattle.cert_tree.specs.declared.node.Node.{Node};
ghost use Rattle.cert_tree.specs.CertText.{AreCertLines, HasNumbers, IsCertText, IsWritten, cert_text};
ghost use Rattle.cert_tree.specs.CertFaults.{IsFaultLine};

/// Lines determine their nodes.
pub fn lines_have_one_certificate()
    ensures { (lines : List (List ℕ)) (a b : List Node) → AreCertLines lines a → AreCertLines lines b → a ≡ b }
{}

/// What is written is read: the text of nodes that meet the condition of the writer is that of these nodes.
pub fn written_certificates_are_read()
    ensures { (nodes : List Node) → All IsWritten nodes → All HasNumbers nodes → IsCertText (cert_text nodes) nodes }
{}

/// A certificate has one spelling, but for a CR before an LF: each text of it has the lines that are written.
pub fn a_certificate_has_one_spelling()
    ensures { (text : List ℕ) (nodes : List Node) → IsCertText text nodes → whole_lines text ≡ whole_lines (cert_text nodes) }
{}

/// A text that leaves the grammar is that of no certificate.
pub fn a_text_with_a_fault_has_no_certificate()
    ensures { (text : List ℕ) (line : ℕ) (nodes : List Node) → IsFaultLine text line → IsCertText text nodes → ⊥ }
{}

/// The line at which a text leaves the grammar is one.
pub fn a_text_has_one_fault_line()
    ensures { (text : List ℕ) (line other : ℕ) → IsFaultLine text line → IsFaultLine text other → line ≡ other }
{}
