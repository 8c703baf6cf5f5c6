/// A word and a serial: a number has serial 0, NULL is (0, 0), and a pointer has its object's serial and its place as the word.
#[derive(Clone, Copy, PartialEq, Eq)]
pub struct Cell {
    pub word: i64,
    pub serial: u64,
}
