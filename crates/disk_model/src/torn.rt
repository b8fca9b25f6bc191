use cfg_base::Bytes;

/// What a crash leaves at the places that are pending: a length, and their bytes in order.
#[derive(Debug, Drop)]
pub struct Torn {
    pub length: u64,
    pub bytes: Bytes,
}
