//! What bodies say, as answers to calls.

ghost use Rattle.std.specs.Prelude.{◌≡◌, OnErr};
ghost use Rattle.page_json.specs.Bodies.{IsSizeBody, IsPageBody, IsGradeBody};
ghost use Rattle.http_source.specs.Answers.{SizeBy, PageBy, GradeBy};
ghost use Rattle.http_source.specs.Asking.{IsNoFault, trouble_in};

use page_json::{JsonFault, Versioned, read_grade, read_page, read_size};
use ranked_list::Row;
use source_api::{FailKind, Trouble};
use std::alloc::Global;

/// The size that a body says. The version that it states is the one at hand from then on.
pub(crate) fn size_said(alloc: Global, body: &[u8], at_hand: &mut u64) -> Result<u64, Trouble>
    ensures says { SizeBy (IsSizeBody body.now) at_hand.new result }
    ensures kept { OnErr result (at_hand.new ≡ at_hand.old) }
    ensures calm { IsNoFault result }
{
    match read_size(alloc, body) {
        Ok(said) => {
            *at_hand = said.version;
            Ok(said.body)
        }
        Err(fault) => Err(trouble_in(fault)),
    }
}

/// The rows that a body says, at most `count` of them, at the version at hand.
pub(crate) fn page_said(
    alloc: Global,
    body: &[u8],
    at_hand: u64,
    count: u32,
) -> Result<Vec<Row>, Trouble>
    ensures says { PageBy (IsPageBody body.now) at_hand count result }
    ensures calm { IsNoFault result }
{
    match read_page(alloc, body) {
        Ok(said) => page_at(said, at_hand, count),
        Err(fault) => Err(trouble_in(fault)),
    }
}

/// These rows, at most `count` of them, where they are of the version at hand. Another version is told
/// before the rows are counted.
fn page_at(said: Versioned<Vec<Row>>, at_hand: u64, count: u32) -> Result<Vec<Row>, Trouble>
    ensures says { PageBy (λ other. other ≡ record { version = said.version; body = said.body.items }) at_hand count result }
    ensures calm { IsNoFault result }
{
    let Versioned { version, body } = said;
    if version != at_hand {
        return Err(Trouble::Moved {
            had: at_hand,
            now: version,
        });
    }
    if body.len() > count as usize {
        return Err(Trouble::Fail(FailKind::Garbled));
    }
    Ok(body)
}

/// The grade that a body says, at the version at hand.
pub(crate) fn grade_said(alloc: Global, body: &[u8], at_hand: u64) -> Result<Option<u32>, Trouble>
    ensures says { GradeBy (IsGradeBody body.now) at_hand result }
    ensures calm { IsNoFault result }
{
    match read_grade(alloc, body) {
        Ok(said) => grade_at(said, at_hand),
        Err(fault) => Err(trouble_in(fault)),
    }
}

/// This grade, where it is of the version at hand.
fn grade_at(said: Versioned<Option<u32>>, at_hand: u64) -> Result<Option<u32>, Trouble>
    ensures says { GradeBy (λ other. other ≡ said) at_hand result }
    ensures calm { IsNoFault result }
{
    if said.version != at_hand {
        return Err(Trouble::Moved {
            had: at_hand,
            now: said.version,
        });
    }
    Ok(said.body)
}

/// The trouble that a fault of a body is.
fn trouble_in(fault: JsonFault) -> Trouble
    ensures { result ≡ trouble_in fault }
{
    match fault {
        JsonFault::NotABody => Trouble::Fail(FailKind::Garbled),
        JsonFault::Memory => Trouble::Fail(FailKind::Memory),
    }
}
