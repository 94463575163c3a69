//! Sums over how queries ended.

ghost use Rattle.std.specs.Prelude.{◌≡◌, ◌≤◌, ◌^◌, [], All, length};
ghost use Rattle.std.specs.List.{sum_by};
ghost use Rattle.query_run.specs.declared.ended.Ended.TheVariants.{Answered};
ghost use Rattle.bulk_run.specs.Endings.{sums_over, IsSmall, HasRoom, with_answer, with_ending};
ghost use Rattle.topk_base.specs.declared.TheConstants.{MAX_QUERIES};

use access_log::Items;
use cert_text::depth_of;
use machine_base::Answer;
use query_run::Ended;

/// What queries came to, in sums over those that were answered.
#[derive(Clone, Copy)]
pub struct BulkSums {
    /// How many queries there were.
    pub queries: u64,
    /// How many of them were answered.
    pub answered: u64,
    /// The depths at which they stopped.
    pub depth: u64,
    /// Their sorted accesses.
    pub sorted: u64,
    /// Their random accesses.
    pub random: u64,
    /// The lower bounds of the aggregates of their answers' objects.
    pub values: u64,
}

/// The sum of the lower bounds of items.
fn low_of(items: &Items) -> u64
    requires { sum_by (λ item. item.low) items.now ≤ 2 ^ 32 }
    ensures { result ≡ sum_by (λ item. item.low) items.now }
{
    let mut sum = 0;
    for item in items.iter() {
        sum += item.low;
    }
    sum
}

impl BulkSums {
    /// Nothing summed yet.
    fn none() -> BulkSums
        ensures { result ≡ sums_over [] }
    {
        BulkSums {
            queries: 0,
            answered: 0,
            depth: 0,
            sorted: 0,
            random: 0,
            values: 0,
        }
    }

    /// Adds the figures of an answer.
    fn add_answer(&mut self, answer: &Answer)
        requires room { HasRoom self.old }
        requires small { IsSmall (Answered answer.now) }
        ensures { self.new ≡ with_answer answer.now self.old }
    {
        self.answered += 1;
        self.depth += depth_of(&answer.transcript);
        self.sorted += answer.transcript.sorted();
        self.random += answer.transcript.random();
        self.values += low_of(&answer.items);
    }

    /// Counts a query that ended so.
    fn count(&mut self, ending: &Ended)
        requires room { HasRoom self.old }
        requires small { IsSmall ending.now }
        ensures { self.new ≡ with_ending ending.now self.old }
    {
        match ending {
            Ended::Answered(answer) => self.add_answer(answer),
            Ended::Core { .. } | Ended::Look { .. } => {}
        }
        self.queries += 1;
    }
}

/// The sums over endings.
pub(crate) fn sums_of(endings: &[Ended]) -> BulkSums
    requires few { length endings.now ≤ MAX_QUERIES }
    requires small { All IsSmall endings.now }
    ensures { result ≡ sums_over endings.now }
{
    let mut sums = BulkSums::none();
    for place in 0..endings.len() {
        sums.count(&endings[place]);
    }
    sums
}
