//! The answer to a call.

/// What a call prints, and the exit status of the program.
#[derive(Drop)]
pub struct Answer {
    pub text: Vec<u8>,
    pub status: u8,
}
