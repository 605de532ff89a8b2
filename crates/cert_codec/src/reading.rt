//! Bytes as certificates.

ghost use Rattle.std.specs.Prelude.{◌<◌, ◌^◌, length, IfOk};
ghost use Rattle.cert_codec.specs.Tree.{CertificateTree, certificate_tree};
ghost use Rattle.cert_codec.specs.Spelling.{Spells};
ghost use Rattle.cert_codec.specs.Front.{IfMalformed, IsMalformedAt};
ghost use Rattle.cert_codec.specs.Reading.{Gives, whole_of};

use crate::certificate::RawCertificate;
use crate::fault::DecodeFault;
use crate::parts::certificate_of;
use crate::stop::{Stop, malformed};
use std::alloc::Global;

#[tactic(auto, unfolding(crate::specs::Reading::whole_of))]
fn whole(alloc: Global, bytes: &[u8]) -> Result<RawCertificate, Stop>
    ensures { Gives certificate_tree result (whole_of bytes.now) }
{
    let (certificate, rest) = certificate_of(alloc, bytes)?;
    if !rest.is_empty() {
        return Err(malformed(rest));
    }
    Ok(certificate)
}

/// The certificate that all of the bytes spell. Only `bottom`, `true`, `false` and implications are read as
/// formulas, hypotheses, lambdas and applications as proofs, and no declared name.
pub fn decode(alloc: Global, bytes: &[u8]) -> Result<RawCertificate, DecodeFault>
    // The place of a fault is a `u32`.
    requires { length bytes.now < 2 ^ 32 }
    // What is read is spelled so.
    ensures found { IfOk result (λ c. Spells bytes.now (certificate_tree c)) }
    // Malformed bytes are no spelling.
    ensures malformed { IfMalformed result (λ at. (c : CertificateTree) → Spells bytes.now c → ⊥) }
    // The place is the first byte with which no spelling begins.
    ensures place { IfMalformed result (λ at. IsMalformedAt bytes.now at) }
{
    match whole(alloc, bytes) {
        Ok(certificate) => Ok(certificate),
        Err(Stop::Malformed { left }) => Err(DecodeFault::Malformed {
            at: (bytes.len() - left) as u32,
        }),
        Err(Stop::NoMemory) => Err(DecodeFault::NoMemory),
    }
}
