// What a book lists of one function.
use sheet::checked::CheckedSheet;

// The sheet, the instructions and notes that stand before the function, and how many are its own.
#[derive(Clone, Copy)]
pub struct Entry {
    pub sheet: CheckedSheet,
    pub start: usize,
    pub notes_start: usize,
    pub prologue: usize,
    pub body: usize,
    pub epilogue: usize,
    pub notes: usize,
}
