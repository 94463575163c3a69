use crate::known::Known;

// What the rule of the table sees of a pass. No value of it is made.
pub struct View<E> {
    // The ticket that it drew, counted without end.
    pub ticket: Option<u64>,
    pub known: Known<E>,
    // What two passes knew that were joined to this one, until it has compared them.
    pub one: Known<E>,
    pub other: Known<E>,
    // How many parts go to the next pass that is split off.
    pub offer: u64,
}
