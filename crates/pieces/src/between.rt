// What there is between two reads.
use longlines::longline::LongLine;

// What is kept of the line that is being read: so many bytes, at the start of the line buffer, or what stands for a line that
// filled the buffer.
#[derive(Clone, Copy)]
pub enum Kept {
    Bytes(usize),
    Long(LongLine),
}

// The number of the line that is being read, what is kept of it, and how many bytes of the output the last piece printed.
#[derive(Clone, Copy)]
pub struct State {
    pub line: u64,
    pub kept: Kept,
    pub printed: usize,
}
