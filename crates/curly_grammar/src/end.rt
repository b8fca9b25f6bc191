use crate::fault::Why;

/// The token at which tokens cease to begin a text, and why.
#[derive(Clone, Copy, Debug, PartialEq, Eq)]
pub(crate) struct End {
    pub(crate) at: usize,
    pub(crate) why: Why,
}
