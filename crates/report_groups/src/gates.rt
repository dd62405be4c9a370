//! What stops a build.

/// What stops a build: its lines, and whether there is none.
#[derive(Drop)]
pub struct Gate {
    pub text: Vec<u8>,
    pub passes: bool,
}
