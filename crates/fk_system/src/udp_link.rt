ghost use Rattle.std.specs.Prelude.{◌≡◌, None};

use fk_base::Failed;
use fk_host::Link;
use std::io;
use std::io::ErrorKind;
use std::net::{Ipv4Addr, Net, SocketAddr, ToSocketAddrs, UdpSocket};

/// A link over the system's network, by version 4 of the Internet Protocol. What it sends is trusted, and it tells nothing.
#[derive(Drop)]
pub struct UdpLink<R: Net + Drop> {
    rt: R,
    faults: u64,
}

impl<R: Net + Drop> UdpLink<R> {
    pub fn new(rt: R) -> Self
        ensures { ⟦<UdpLink<R> as Link>⟧.faults result ≡ 0 }
    {
        UdpLink { rt, faults: 0 }
    }
}

impl<R: Net + Drop> Link for UdpLink<R> {
    ghost faults = { λ l. l.faults };

    ghost told = { λ _. None };

    fn send(&mut self, server: &[u8], port: u16, bytes: &[u8]) -> Result<(), Failed> {
        match send_to(&self.rt, server, port, bytes) {
            Ok(()) => Ok(()),
            Err(_) => {
                self.faults = self.faults.saturating_add(1);
                Err(Failed)
            }
        }
    }
}

fn send_to<R: Net>(rt: &R, server: &[u8], port: u16, bytes: &[u8]) -> io::Result<()> {
    let Ok(server) = str::from_utf8(server) else {
        return Err(ErrorKind::InvalidInput.into());
    };
    let address = address_of(rt, server, port)?;
    let socket = UdpSocket::bind(rt, SocketAddr::from((Ipv4Addr::UNSPECIFIED, 0)))?;
    if socket.send_to(bytes, address)? < bytes.len() {
        return Err(ErrorKind::WriteZero.into());
    }
    Ok(())
}

/// The first address of version 4 that the server has.
fn address_of<R: Net>(rt: &R, server: &str, port: u16) -> io::Result<SocketAddr> {
    for address in (server, port).to_socket_addrs(rt)? {
        if address.is_ipv4() {
            return Ok(address);
        }
    }
    Err(ErrorKind::NotFound.into())
}
