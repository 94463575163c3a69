use turn_lock::{Logged, Pass};

/// A journal behind a lock.
#[derive(Drop)]
pub struct Journal {
    /// What the writer wrote.
    pub entries: Vec<u32>,
    /// What the readers asked.
    pub asks: Vec<u32>,
    /// The highest mark that anybody set.
    pub mark: u32,
}

impl Logged for Journal {
    ghost use Rattle.test_parts.specs.Journal.{facts_of};

    type Entry = u32;

    ghost facts = { facts_of };

    fn length(&self) -> u64 {
        self.entries.len() as u64
    }
}

/// A reader, with what it noticed in its turns.
#[derive(Drop)]
pub struct Reader {
    pub pass: Pass<Journal>,
    /// How many turns it had.
    pub turns: u32,
    /// How many entries the log had at its last turn.
    pub entries: u64,
    /// Whether the log was ever shorter than at the turn before.
    pub fell: bool,
}
