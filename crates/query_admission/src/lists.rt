//! Lists by name.

ghost use Rattle.std.specs.Prelude.{◌≡◌};
ghost use Rattle.query_admission.specs.View.{View};

/// What a list says of itself.
#[derive(Clone, Copy, Debug, PartialEq, Eq)]
pub struct ListInfo {
    /// How many objects the list states, or None where it wasn't opened.
    pub size: Option<u64>,
    /// Whether the list offers random access.
    pub random: bool,
    /// Whether the list offers sorted access.
    pub sorted: bool,
    /// The number of the list's source. It has no meaning where the list wasn't opened.
    pub source: u32,
    /// The version that the list had when it was opened. It has no meaning where the list wasn't opened.
    pub version: u64,
}

/// Lists that are found by their names.
///
/// `view` is what is known by a name: what the list says of itself, and its rows where they are told.
pub trait Lists {
    ghost view: { Self → View };

    /// What the list of this name says of itself, or None where no list has the name.
    fn find(&self, name: &[u8]) -> Option<ListInfo>
        ensures { result ≡ (view self.now).listed name.now };
}
