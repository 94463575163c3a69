//! Why an access is refused.

/// Why a transcript doesn't take an access.
#[derive(Clone, Copy, PartialEq, Eq)]
pub enum PushFault {
    /// No table agrees with the transcript and this access. `at` is the access's number, from 1.
    /// `kind` is the first of these that holds:
    ///
    /// 1. there is no list of this number;
    /// 2. the grade is above the greatest;
    /// 3. the object is one more than the lists have;
    /// 4. a sorted access gives a grade above the last one of its list;
    /// 5. a sorted access gives an object that its list gave before;
    /// 6. another access gave the object another grade in this list;
    /// 7. a sorted access passes over an object of its list that is known to have a greater grade;
    /// 8. a random access gives an object that its list hasn't given yet a grade above the list's
    ///    bottom.
    Inconsistent { at: u64, kind: u8 },
    /// No memory was left.
    Memory,
}
