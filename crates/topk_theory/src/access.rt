//! One access of a query to a source.

ghost use Rattle.std.specs.Prelude.{◌≡◌};

/// An access and what it gave.
#[derive(Clone, Copy, PartialEq, Eq)]
pub enum Access {
    /// The next row of a list from the top.
    Sorted { list: u8, object: u32, grade: u32 },
    /// The grade of a named object.
    Random { list: u8, object: u32, grade: u32 },
}

impl Access {
    ghost use Rattle.topk_theory.specs.Transcript.{list_of, object_of, grade_of, is_sorted};

    /// The list that it read, from 0.
    pub fn list(&self) -> u8
        ensures { result ≡ list_of self.now }
    {
        match self {
            Access::Sorted { list, .. } | Access::Random { list, .. } => *list,
        }
    }

    /// The object that it named or gave.
    pub fn object(&self) -> u32
        ensures { result ≡ object_of self.now }
    {
        match self {
            Access::Sorted { object, .. } | Access::Random { object, .. } => *object,
        }
    }

    /// The grade that it gave.
    pub fn grade(&self) -> u32
        ensures { result ≡ grade_of self.now }
    {
        match self {
            Access::Sorted { grade, .. } | Access::Random { grade, .. } => *grade,
        }
    }

    /// Whether it gave the next row of its list.
    pub fn is_sorted(&self) -> bool
        ensures { result ≡ is_sorted self.now }
    {
        matches!(self, Access::Sorted { .. })
    }
}
