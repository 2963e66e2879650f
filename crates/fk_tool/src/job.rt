use fk_client::Sealing;

/// What is to be done with each line of the input.
#[derive(Drop)]
pub(crate) enum Job {
    /// It is packed, and the datagram printed.
    Encode(Sealing),
    /// It is opened, and its fields printed, or why it is refused.
    Decode(Sealing),
}
