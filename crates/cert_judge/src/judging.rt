//! What is told of a text.

ghost use Rattle.std.specs.Prelude.{◌≡◌, ◌<◌, ◌^◌, length, IfOk, Ok};
ghost use Rattle.topk_base.specs.Lines.{lines};
ghost use Rattle.topk_theory.specs.Threshold.{item_objects};
ghost use Rattle.access_log.specs.Log.{IsConsistent};
ghost use Rattle.monotone_fn.specs.Shape.{list_count};
ghost use Rattle.monotone_fn.specs.Value.{value};
ghost use Rattle.cert_text.specs.Certificate.{IsCertificate, guaranteed};
ghost use Rattle.cert_judge.specs.Transcripts.{log_of};
ghost use Rattle.cert_judge.specs.Judging.{JudgesBy, IsJudged, TellsOfCertificate, Tells};

use super::Memory;
use super::counter::counter_of;
use super::decision::{judge, judge_within};
use super::figures::first_figure;
use super::judgement::Judgement;
use super::transcript::transcript_of;
use super::verdict::{JudgeFault, Verdict};
use access_log::{PushFault, Transcript};
use cert_text::{CertFault, Certificate, read_certificate};
use ranked_list::Items;
use std::alloc::Global;

/// The objects of an answer.
fn objects_of(alloc: Global, items: &Items) -> Result<Vec<u32>, Memory>
    ensures objects { IfOk result (λ objects. objects.items ≡ item_objects items.now) }
    ensures few { IfOk result (λ objects. length objects.items < 2 ^ 32) }
{
    let mut objects = Vec::new(alloc);
    for item in items.iter() {
        let Ok(()) = objects.push(item.object) else {
            return Err(Memory);
        };
    }
    Ok(objects)
}

/// What is told of an answer whose question is fair, with the verdict on it.
fn told_fair(
    alloc: Global,
    certificate: &Certificate,
    transcript: &Transcript,
    verdict: Verdict,
) -> Result<Judgement, Memory>
    requires certificate { IsCertificate certificate.now }
    requires few { length certificate.now.accesses < 2 ^ 40 }
    requires made { transcript.now ≡ log_of certificate.now }
    requires judged { IsJudged certificate.now (Ok verdict) }
    ensures { IfOk result (TellsOfCertificate certificate.now) }
{
    if let Some(line) = first_figure(certificate, transcript) {
        return Ok(Judgement::Figure { line });
    }
    match verdict {
        Verdict::Fixes => Ok(Judgement::Fixes),
        Verdict::Beaten {
            inside,
            outside,
            low,
            high,
        } => match counter_of(alloc, certificate, transcript, inside) {
            Ok(counter) => Ok(Judgement::Beaten {
                inside,
                outside,
                low,
                high,
                counter,
            }),
            Err(fault) => Err(fault),
        },
    }
}

/// The judge's word on an answer, within the factor that the certificate says, where it says one.
fn verdict_on(
    alloc: Global,
    certificate: &Certificate,
    transcript: &Transcript,
    answer: &[u32],
) -> Result<Verdict, JudgeFault>
    requires lists { list_count certificate.now.query.expr ≡ transcript.now.lists }
    requires size { length answer.now < 2 ^ 32 }
    ensures { JudgesBy (guaranteed certificate.now) (value certificate.now.query.expr) certificate.now.query.k
        transcript.now answer.now result }
{
    let (expr, k) = (&certificate.query.expr, certificate.query.k);
    match certificate.guarantee {
        Some(factor) => judge_within(alloc, transcript, expr, k, answer, factor.p, factor.q),
        None => judge(alloc, transcript, expr, k, answer),
    }
}

/// What is told of a certificate with which some table agrees.
fn told_over(
    alloc: Global,
    certificate: &Certificate,
    transcript: &Transcript,
) -> Result<Judgement, Memory>
    requires certificate { IsCertificate certificate.now }
    requires few { length certificate.now.accesses < 2 ^ 40 }
    requires made { transcript.now ≡ log_of certificate.now }
    requires agrees { IsConsistent transcript.now }
    ensures { IfOk result (TellsOfCertificate certificate.now) }
{
    let Ok(answer) = objects_of(alloc, &certificate.items) else {
        return Err(Memory);
    };
    match verdict_on(alloc, certificate, transcript, &answer) {
        Ok(verdict) => told_fair(alloc, certificate, transcript, verdict),
        Err(JudgeFault::WildGuess { at }) => Ok(Judgement::WildGuess { at }),
        Err(JudgeFault::WrongSize { given, k }) => Ok(Judgement::WrongSize { given, k }),
        Err(JudgeFault::UnseenAnswer { object }) => Ok(Judgement::UnseenAnswer { object }),
        Err(JudgeFault::Memory) => Err(Memory),
    }
}

/// What is told of a certificate.
fn told_of(alloc: Global, certificate: &Certificate) -> Result<Judgement, Memory>
    requires certificate { IsCertificate certificate.now }
    requires few { length certificate.now.accesses < 2 ^ 40 }
    ensures { IfOk result (TellsOfCertificate certificate.now) }
{
    match transcript_of(alloc, certificate) {
        Ok(transcript) => {
            let told = told_over(alloc, certificate, &transcript);
            transcript.let_go();
            told
        }
        Err(PushFault::Inconsistent { at, kind }) => Ok(Judgement::Inconsistent { at, kind }),
        Err(PushFault::Memory) => Err(Memory),
    }
}

/// What is told of a text: why it is no certificate, or of the certificate the first fault, or the verdict.
///
/// The accesses are tested in their order, then the question, then the figures line by line. The time is that of
/// `judge`, and of the counter table where the answer is beaten.
///
/// *Cost*: that of `read_certificate`, one `push` for each access, `judge`, two bounds for each object of the answer;
/// `counter_table` where the answer is beaten.
pub fn judge_text(alloc: Global, bytes: &[u8]) -> Result<Judgement, Memory>
    requires { length bytes.now < 2 ^ 40 }
    ensures { IfOk result (Tells (lines bytes.now)) }
{
    match read_certificate(alloc, bytes) {
        Ok(certificate) => {
            let told = told_of(alloc, &certificate);
            certificate.let_go();
            told
        }
        Err(CertFault::BadLine { line }) => Ok(Judgement::BadLine { line }),
        Err(CertFault::Memory) => Err(Memory),
    }
}
