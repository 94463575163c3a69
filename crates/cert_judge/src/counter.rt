//! The table that beats an answer, with the query, as a bundle.

ghost use Rattle.std.specs.Prelude.{◌≡◌, Contains, IfOk};
ghost use Rattle.topk_theory.specs.Transcript.{IsTame, seen_objects};
ghost use Rattle.query_text.specs.Bytes.{bytes_of};
ghost use Rattle.cert_judge.specs.Transcripts.{log_of};
ghost use Rattle.cert_judge.specs.Judging.{IsCounterOf};

use super::Memory;
use super::beating::counter_table;
use access_log::Transcript;
use bundle_text::Bundle;
use cert_text::Certificate;
use query_text::{Names, print};
use std::alloc::Global;

/// The bytes of a name.
fn copied_name(alloc: Global, name: &[u8]) -> Result<Vec<u8>, Memory>
    ensures { IfOk result (λ bytes. bytes.items ≡ name.now) }
{
    match Vec::from_slice(alloc, name) {
        Ok(bytes) => Ok(bytes),
        Err(_) => Err(Memory),
    }
}

/// The names of the lists.
fn copied_names(alloc: Global, names: &Names) -> Result<Vec<Vec<u8>>, Memory>
    ensures { IfOk result (λ copied. bytes_of copied.items ≡ names.now) }
{
    let mut copied = Vec::new(alloc);
    for name in names.iter() {
        let Ok(bytes) = copied_name(alloc, name) else {
            return Err(Memory);
        };
        let Ok(()) = copied.push(bytes) else {
            return Err(Memory);
        };
    }
    Ok(copied)
}

/// The table against an object of the answer, under the query's names and with its text.
pub(crate) fn counter_of(
    alloc: Global,
    certificate: &Certificate,
    transcript: &Transcript,
    inside: u32,
) -> Result<Bundle, Memory>
    requires made { transcript.now ≡ log_of certificate.now }
    requires tame { IsTame certificate.now.accesses }
    requires seen { Contains (seen_objects certificate.now.accesses) inside }
    ensures { IfOk result (IsCounterOf certificate.now inside) }
{
    let Ok(names) = copied_names(alloc, &certificate.query.names) else {
        return Err(Memory);
    };
    let Ok(query) = print(alloc, &certificate.query) else {
        return Err(Memory);
    };
    match counter_table(alloc, transcript, inside) {
        Ok(lists) => Ok(Bundle {
            names,
            lists,
            query,
        }),
        Err(_) => Err(Memory),
    }
}
