//! The transcript of a certificate.

ghost use Rattle.std.specs.Prelude.{◌≡◌};
ghost use Rattle.cert_text.specs.Certificate.{IsCertificate};
ghost use Rattle.cert_judge.specs.Transcripts.{front, Pushes, Makes};

use access_log::{PushFault, Transcript};
use cert_text::{Accesses, Certificate};
use std::alloc::Global;

/// Pushes the accesses into a transcript that has none.
fn push_all(transcript: &mut Transcript, accesses: &Accesses) -> Result<(), PushFault>
    requires { transcript.old ≡ front transcript.old.lists transcript.old.count accesses.now 0 }
    ensures { Pushes transcript.old.lists transcript.old.count accesses.now transcript.new result }
{
    for access in accesses.iter() {
        if let Err(fault) = transcript.push(*access) {
            return Err(fault);
        }
    }
    Ok(())
}

/// The transcript that the accesses of a certificate make, or the first of them with which no table agrees.
pub(crate) fn transcript_of(
    alloc: Global,
    certificate: &Certificate,
) -> Result<Transcript, PushFault>
    requires { IsCertificate certificate.now }
    ensures { Makes certificate.now result }
{
    let lists = certificate.query.expr.lists();
    let Ok(mut transcript) = Transcript::make(alloc, lists, certificate.count) else {
        return Err(PushFault::Memory);
    };
    match push_all(&mut transcript, &certificate.accesses) {
        Ok(()) => Ok(transcript),
        Err(fault) => {
            transcript.let_go();
            Err(fault)
        }
    }
}
