use fk_base::Bytes;

/// A datagram, and where it goes.
#[derive(Drop)]
pub struct Packet {
    pub datagram: Bytes,
    pub server: Bytes,
    pub port: u16,
}
