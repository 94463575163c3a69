/// What a pass has of a lock. It stands in clauses alone: no value of it is made.
pub struct Hold<K> {
    /// The key of the lock.
    pub key: Option<K>,
    /// How many of the lock's 2^40 parts it has.
    pub parts: u64,
    /// The place of the value that it has, if it has one.
    pub held: Option<usize>,
}
