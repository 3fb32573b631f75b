// Input that comes in pieces.
use crate::server::Server;
use lines::hex::LINE_LIMIT;

// The characters of a line that are kept: one more than the longest line has, which tells that a line is overlong.
pub const KEPT_LENGTH: usize = LINE_LIMIT + 1;

// The state after some input: the server, and the first characters of a line that has not ended.
#[derive(Clone, Copy)]
pub struct Reader {
    pub server: Server,
    pub line: [u8; KEPT_LENGTH],
    pub len: usize,
}

// What was taken of a piece of input, and how much was written.
#[derive(Clone, Copy)]
pub struct Fed {
    pub reader: Reader,
    pub taken: usize,
    pub written: usize,
}
