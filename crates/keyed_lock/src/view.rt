use crate::hold::Hold;

// What the rule of the table sees of a pass. No value of it is made.
pub struct View<K> {
    pub hold: Hold<K>,
    // How many parts go to the next pass that is split off.
    pub offer: u64,
}
