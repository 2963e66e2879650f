ghost use Rattle.std.specs.Prelude.{◌≡◌, ◌≤◌, None, false, IfOk};
ghost use Rattle.fk_host.specs.Feed.{datagram_len, is_end_input};

use crate::system_moment;
use crate::waiting::{TRIES, pause};
use fk_base::{Failed, Ip4};
use fk_host::{DATAGRAM_ROOM, Feed, Input, Turn};
use libc::net::{SO_RCVBUF, SOL_SOCKET, setsockopt};
use std::io::ErrorKind;
use std::net::{Ipv4Addr, Net, SocketAddr, UdpSocket};
use std::os::fd::AsRawFd;
use std::time::{Clock, Duration};
use std::{io, thread};

/// How long a call for a turn waits for a datagram, in seconds.
const WAIT: u64 = 1;

/// How much room is asked for the datagrams that wait to be taken, in bytes.
const ROOM: i32 = i32::MAX;

/// Linux's number of a want of room for what is sent or received.
const NO_BUFFERS: i32 = 105;

/// The datagrams that come to a port of this machine, at each of its addresses. What they bring is trusted, and it tells nothing. A
/// turn is quiet after one second without a datagram; its moment is the system's clock. It never ends. A port that is taken is waited
/// for, for two seconds at most.
#[derive(Drop)]
pub struct UdpFeed<R: Net + Clock + Drop> {
    rt: R,
    // the socket, once it is open
    socket: Option<UdpSocket>,
    faults: u64,
}

impl<R: Net + Clock + Drop> UdpFeed<R> {
    /// A feed that is not open yet: until then a call for a turn fails.
    pub fn new(rt: R) -> Self
        ensures { ⟦<UdpFeed<R> as Feed>⟧.faults result ≡ 0 }
    {
        UdpFeed {
            rt,
            socket: None,
            faults: 0,
        }
    }
}

impl<R: Net + Clock + Drop> Feed for UdpFeed<R> {
    ghost faults = { λ f. f.faults };

    ghost told = { λ _. None };

    ghost has_ended = { λ _. false };

    fn open(&mut self, port: u16) -> Result<(), Failed> {
        // The port may be the one that is open.
        self.socket = None;
        match listen(&self.rt, port) {
            Ok(socket) => {
                self.socket = Some(socket);
                Ok(())
            }
            Err(_) => {
                self.faults = self.faults.saturating_add(1);
                Err(Failed)
            }
        }
    }

    fn next(&mut self, buf: &mut [u8; DATAGRAM_ROOM]) -> Result<Turn, Failed> {
        match receive(&self.rt, &self.socket, buf) {
            Ok(input) => Ok(Turn {
                moment: system_moment(&self.rt),
                input,
            }),
            Err(_) => {
                self.faults = self.faults.saturating_add(1);
                Err(Failed)
            }
        }
    }
}

fn listen<R: Net + Clock>(rt: &R, port: u16) -> io::Result<UdpSocket> {
    let socket = bind(rt, port)?;
    socket.set_read_timeout(Some(Duration::from_secs(WAIT)))?;
    ask_for_room(&socket);
    Ok(socket)
}

/// Asks for as much room as there may be for datagrams that wait. The system gives what it allows; with less of it the socket serves.
fn ask_for_room(socket: &UdpSocket) {
    let mut value = [0; 16];
    value[..4].copy_from_slice(&ROOM.to_ne_bytes());
    let _given = unsafe { setsockopt(socket.as_raw_fd(), SOL_SOCKET, SO_RCVBUF, &value, 4) };
}

/// Waits a little for the port, which a daemon that was just killed may have left to a child that it began to start.
fn bind<R: Net + Clock>(rt: &R, port: u16) -> io::Result<UdpSocket> {
    let address = SocketAddr::from((Ipv4Addr::UNSPECIFIED, port));
    for _ in 0..TRIES {
        match UdpSocket::bind(rt, address) {
            Err(error) if error.kind() == ErrorKind::AddrInUse => pause(rt),
            ended => return ended,
        }
    }
    UdpSocket::bind(rt, address)
}

/// The next datagram. A wait that a signal has cut short is a quiet one, and so is one that ends with the system's word of an earlier
/// datagram, or for want of memory, behind which it waits.
fn receive<R: Clock>(
    rt: &R,
    socket: &Option<UdpSocket>,
    buf: &mut [u8; DATAGRAM_ROOM],
) -> io::Result<Input>
    ensures within { IfOk result (λ input. datagram_len input ≤ DATAGRAM_ROOM) }
    ensures goes_on { IfOk result (λ input. is_end_input input ≡ false) }
{
    let Some(socket) = socket else {
        return Err(ErrorKind::NotConnected.into());
    };
    match socket.recv_from(buf) {
        Ok((len, SocketAddr::V4(source))) => Ok(Input::Datagram {
            source: Ip4(u32::from(*source.ip())),
            len,
        }),
        Ok((_, SocketAddr::V6(_))) => Err(ErrorKind::InvalidData.into()),
        Err(error) if is_quiet(error.kind()) => Ok(Input::Quiet),
        Err(error) if wants_memory(&error) => {
            thread::sleep(rt, Duration::from_secs(WAIT));
            Ok(Input::Quiet)
        }
        Err(error) => Err(error),
    }
}

/// The wait was over before a datagram came.
fn is_quiet(kind: ErrorKind) -> bool {
    matches!(
        kind,
        ErrorKind::WouldBlock
            | ErrorKind::TimedOut
            | ErrorKind::Interrupted
            | ErrorKind::ConnectionRefused
            | ErrorKind::HostUnreachable
            | ErrorKind::NetworkUnreachable
    )
}

/// The system had no memory for the datagram.
fn wants_memory(error: &io::Error) -> bool {
    error.kind() == ErrorKind::OutOfMemory || error.raw_os_error() == Some(NO_BUFFERS)
}
