//! The text of a line's outcome, made before it is written.

ghost use Rattle.std.specs.Prelude.{◌≡◌, None, IfSome, option_map};
ghost use Rattle.line_outcome.specs.LineOutcomes.{CanBeWritten};
ghost use Rattle.catalog_run.specs.Running.{line_text};

use cert_text::write_outcome;
use query_admission::LineOutcome;
use std::alloc::Global;
use std::marker::Model;
use tk_io::{Failed, Sink};

/// All bytes that were written, in memory that grows with them. A write fails where memory is refused.
#[derive(Drop)]
struct Kept {
    bytes: Vec<u8>,
    faults: u64,
}

impl Sink for Kept {
    ghost use Rattle.std.specs.Prelude.{Some};

    ghost held = { λ t. Some t.bytes.items };

    ghost faults = { λ t. t.faults };

    /// Takes all bytes, or fails where memory is refused.
    fn write(&mut self, bytes: &[u8]) -> Result<usize, Failed> {
        let Ok(()) = self.bytes.extend_from_slice(bytes) else {
            self.faults = self.faults.saturating_add(1);
            return Err(Failed);
        };
        Ok(bytes.len())
    }
}

/// Place for the text of a line's outcome that is made before it is written.
///
/// Contracts see the text, or `None` where there is none.
#[derive(Drop)]
pub(crate) struct MadeText {
    bytes: Option<Vec<u8>>,
}

impl Model for MadeText {
    ghost use Rattle.std.specs.Prelude.{ℕ, List, Option, option_map};

    ghost Value = { Option (List ℕ) };

    ghost view = { λ t. option_map (λ bytes. bytes.items) t.bytes };
}

impl MadeText {
    /// Place with no text. Takes no memory.
    pub(crate) fn none() -> MadeText
        ensures { result ≡ None }
    {
        MadeText { bytes: None }
    }

    /// Makes the text of the outcome of the line with this number. Where memory runs out for it there is none.
    pub(crate) fn make(&mut self, alloc: Global, number: u64, line: &LineOutcome)
        requires { CanBeWritten line.now }
        ensures { IfSome self.new (λ text. text ≡ line_text number line.now) }
    {
        self.bytes = kept_text(alloc, number, line);
    }

    /// The text.
    pub(crate) fn text(&self) -> Option<&[u8]>
        ensures { option_map (λ text. text.now) result ≡ self.now }
    {
        self.bytes.as_deref()
    }
}

/// The text of the outcome of the line with this number, or `None` where memory runs out for it.
fn kept_text(alloc: Global, number: u64, line: &LineOutcome) -> Option<Vec<u8>>
    requires { CanBeWritten line.now }
    ensures { IfSome result (λ text. text.items ≡ line_text number line.now) }
{
    let mut kept = Kept {
        bytes: Vec::new(alloc),
        faults: 0,
    };
    let written = write_outcome(
        &mut kept,
        number,
        line.query.as_ref(),
        line.count,
        line.versions.as_slice(),
        &line.outcome,
    );
    let Kept { bytes, .. } = kept;
    match written {
        Ok(()) => Some(bytes),
        Err(_) => {
            drop(bytes);
            None
        }
    }
}
