// What is said of a moment that was made.

// A moment that was made: the ticks since the one before it, whether a moment that is not older than two hours had to go for it, and whether no world was left.
#[derive(Clone, Copy)]
pub struct Made {
    pub ticks: u64,
    pub forgot: bool,
    pub lost: bool,
}

// A reply that was accepted: its moment, the count of its asking, and the two times between which it says that it was made.
#[derive(Clone, Copy)]
pub struct Heard {
    pub made: Made,
    pub asked: u64,
    pub least: u64,
    pub greatest: u64,
}
