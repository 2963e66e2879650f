//! How values stand in answers. Addresses and pairs are written here once more, so that no writer under test writes them.
use fk_base::{Bytes, Ip4, Net4, Pair, Proto, Words};
use fk_row_text::Answer;
use std::fmt;
use std::fmt::Debug;

/// An address, as `10.0.0.7`.
#[derive(Drop)]
struct Address(Ip4);

impl fmt::Display for Address {
    fn fmt<W: fmt::Write>(&self, f: &mut fmt::Formatter<W>) -> fmt::Result {
        let [a, b, c, d] = self.0.0.to_be_bytes();
        write!(f, "{a}.{b}.{c}.{d}")
    }
}

/// A pair, as `tcp/22`.
#[derive(Drop)]
struct Port(Pair);

impl fmt::Display for Port {
    fn fmt<W: fmt::Write>(&self, f: &mut fmt::Formatter<W>) -> fmt::Result {
        let port = self.0.port;
        match self.0.proto {
            Proto::Tcp => write!(f, "tcp/{port}"),
            Proto::Udp => write!(f, "udp/{port}"),
        }
    }
}

/// A net, as `10.0.0.0/8`.
#[derive(Drop)]
struct Net(Net4);

impl fmt::Display for Net {
    fn fmt<W: fmt::Write>(&self, f: &mut fmt::Formatter<W>) -> fmt::Result {
        let [a, b, c, d] = self.0.base.0.to_be_bytes();
        let bits = self.0.bits;
        write!(f, "{a}.{b}.{c}.{d}/{bits}")
    }
}

pub(crate) fn put_address(ip: Ip4, answer: &mut Answer) {
    answer.shown(&Address(ip));
}

pub(crate) fn put_net(net: Net4, answer: &mut Answer) {
    answer.shown(&Net(net));
}

pub(crate) fn put_pair(pair: Pair, answer: &mut Answer) {
    answer.shown(&Port(pair));
}

pub(crate) fn put_pairs(pairs: &[Pair], answer: &mut Answer) {
    for pair in pairs {
        put_pair(*pair, answer);
    }
}

/// The texts of a list, one after the other.
pub(crate) fn put_words(words: &Words, answer: &mut Answer) {
    for at in 0..words.count() {
        answer.text(words.get(at));
    }
}

/// A text, or the name of a fault.
pub(crate) fn put_outcome<E: Debug>(made: &Result<Bytes, E>, answer: &mut Answer) {
    match made {
        Ok(text) => answer.text(text.as_slice()),
        Err(fault) => answer.name(fault),
    }
}

/// `Ok`, or the name of a fault.
pub(crate) fn put_check<E: Debug>(check: &Result<(), E>, answer: &mut Answer) {
    match check {
        Ok(()) => answer.word(b"Ok"),
        Err(fault) => answer.name(fault),
    }
}

/// A text, or `none`.
pub(crate) fn put_text_if(text: Option<&[u8]>, answer: &mut Answer) {
    match text {
        Some(text) => answer.text(text),
        None => answer.word(b"none"),
    }
}

/// A text, or `none`.
pub(crate) fn put_bytes_if(bytes: Option<&Bytes>, answer: &mut Answer) {
    match bytes {
        Some(bytes) => answer.text(bytes.as_slice()),
        None => answer.word(b"none"),
    }
}

/// A number, or `none`.
pub(crate) fn put_number_if(number: Option<u64>, answer: &mut Answer) {
    match number {
        Some(number) => answer.number(number),
        None => answer.word(b"none"),
    }
}

/// The name of a variant, or `none`.
pub(crate) fn put_name_if<T: Debug + Drop>(variant: Option<T>, answer: &mut Answer) {
    match variant {
        Some(variant) => answer.name(&variant),
        None => answer.word(b"none"),
    }
}

/// An address, or `none`.
pub(crate) fn put_address_if(ip: Option<Ip4>, answer: &mut Answer) {
    match ip {
        Some(ip) => put_address(ip, answer),
        None => answer.word(b"none"),
    }
}

/// A pair, or `none`.
pub(crate) fn put_pair_if(pair: Option<Pair>, answer: &mut Answer) {
    match pair {
        Some(pair) => put_pair(pair, answer),
        None => answer.word(b"none"),
    }
}
