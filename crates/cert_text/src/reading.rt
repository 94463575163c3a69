//! Certificates, read.

ghost use Rattle.std.specs.Prelude.{◌≡◌, ℕ, List, Some, IfOk, IfErr};
ghost use Rattle.topk_base.specs.Lines.{lines};
ghost use Rattle.machine_base.specs.declared.answer.Answer.{Answer};
ghost use Rattle.query_text.specs.declared.query.Query.{Query};
ghost use Rattle.cert_text.specs.declared.outcome.Outcome.TheVariants.{Answered};
ghost use Rattle.cert_text.specs.Outcome.{outcome_text, certificate_of, IsCertified};
ghost use Rattle.cert_text.specs.Judging.{Finds};
ghost use Rattle.cert_text.specs.Reading.{Spells, IsReadAs, IsCause};

use super::certificate::{Accesses, Certificate};
use super::fault::CertFault;
use super::parts::number_of;
use super::reader::{Counted, Ending, Results, read_queried};
use super::versions::Versions;
use access_log::Items;
use std::alloc::Global;
use topk_base::first_line;

/// The certificate that the lines of a text spell.
fn read_lines(alloc: Global, bytes: &[u8]) -> Result<Certificate, CertFault>
    ensures { Finds Spells (λ c. c) 1 (lines bytes.now) result }
{
    let Some((text, rest)) = first_line(bytes) else {
        return Err(CertFault::BadLine { line: 1 });
    };
    let Some(line) = number_of(text) else {
        return Err(CertFault::BadLine { line: 1 });
    };
    let (query, counted) = read_queried(alloc, 2, rest)?;
    let Counted {
        count,
        versions,
        results,
    } = counted;
    let Results { items, ending } = results;
    let Ending {
        guarantee,
        figures,
        accesses,
    } = ending;
    if items.len() > u32::MAX as usize || accesses.len() > u32::MAX as usize {
        query.let_go();
        drop(versions);
        drop(items);
        drop(accesses);
        return Err(CertFault::Memory);
    }
    Ok(Certificate {
        line,
        query,
        count,
        versions: Versions::from_vec(versions),
        items: Items::from_vec(items),
        guarantee,
        depth: figures.depth,
        sorted: figures.sorted,
        random: figures.random,
        cost: figures.cost,
        accesses: Accesses::from_vec(accesses),
    })
}

/// Reads a certificate. Its numbers are in their ranges and its names are the query's, but nothing
/// else is checked of them: neither that the figures are those of the accesses nor that the answer
/// is right. A list without a line of its version has version 0. There is a guarantee exactly where
/// the query's algorithm has one.
pub fn read_certificate(alloc: Global, bytes: &[u8]) -> Result<Certificate, CertFault>
    // What is read is spelled so.
    ensures found { IfOk result (Spells (lines bytes.now)) }
    // What spells a certificate is read as that certificate, unless memory was refused.
    ensures reads { (c : Certificate) → Spells (lines bytes.now) c → IsReadAs c result }
    // Else the first line is named with which no certificate begins.
    ensures fault { IfErr result (IsCause (lines bytes.now)) }
    // What is written of an answer is read back.
    ensures again { (line : ℕ) (query : Query) (count : ℕ) (versions : List ℕ) (answer : Answer)
        → IsCertified line query count versions answer
        → bytes.now ≡ outcome_text line (Some query) count versions (Answered answer)
        → IsReadAs (certificate_of line query count versions answer) result }
{
    read_lines(alloc, bytes)
}
