// What the checkers say of a text in a state.
ghost use Rattle.std.specs.Prelude.{◌<◌, ◌^◌, All, length, IfOk};
ghost use Rattle.cert_tree.specs.CertText.{IsWritten};

use crate::scenes::{Scene, state};
use cert_check::{NoWhy, Scratch, Verdict, check_optimal, check_spent};
use cert_tree::{Cert, read_cert};
use std::alloc::Global;
use std::test::Fail;

/// What is said of the text as an optimal tree for a cost.
pub fn optimal(alloc: Global, scene: &Scene<'_>, cost: u64, text: &[u8]) -> Result<Verdict, Fail> {
    let (graph, fleet) = state(alloc, scene)?;
    let cert = cert_of(alloc, text)?;
    let mut scratch = Scratch::new(alloc, &graph)?;
    Ok(check_optimal(&graph, &fleet, cost, &cert, &mut scratch))
}

/// And as a spent tree for a cost, a least cost and a budget.
pub fn spent(
    alloc: Global,
    scene: &Scene<'_>,
    numbers: (u64, u64, u64),
    text: &[u8],
) -> Result<Verdict, Fail> {
    let (graph, fleet) = state(alloc, scene)?;
    let cert = cert_of(alloc, text)?;
    let mut scratch = Scratch::new(alloc, &graph)?;
    let (cost, least, budget) = numbers;
    Ok(check_spent(&graph, &fleet, cost, least, budget, &cert, &mut scratch))
}

/// The certificate of a text.
fn cert_of(alloc: Global, text: &[u8]) -> Result<Cert, Fail>
    ensures written { IfOk result (All IsWritten) }
    ensures few { IfOk result (λ nodes. length nodes < 2 ^ 32) }
{
    if text.len() > 1000 {
        return Err(Fail::from("a short certificate"));
    }
    match read_cert(alloc, text) {
        Ok(cert) if cert.as_slice().len() <= 1000 => Ok(cert),
        _ => Err(Fail::from("a certificate")),
    }
}

/// The node is the first that fails, for this reason.
pub fn no(node: u32, why: NoWhy) -> Verdict {
    Verdict::No { node, why }
}
