use run_model::Entry;
use std::collections::LinkedList;

/// What a seat of the history table knows: whether it enrols and how many it enrolled, what it has
/// seen of the history now and earlier, and the parts that it has. No value of it is made.
pub struct View {
    pub opens: bool,
    pub enrolled: u64,
    pub seen: LinkedList<Entry>,
    pub olds: LinkedList<LinkedList<Entry>>,
    pub parts: LinkedList<Part>,
}

/// What a replica drew, each entry with its tick. No value of it is made.
pub struct Part {
    pub replica: u32,
    pub pairs: LinkedList<(u64, Entry)>,
}
