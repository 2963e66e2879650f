//! Base64 without padding (RFC 4648, section 4), in which each list of bytes has exactly one text.
//!
//! It is strict: another byte than the 64 letters, a length that no text has and bits that would be lost are refused.
//! The alphabet for URLs, padding and line breaks are no part of it.
//!
//! Start at `text`; what a text is stands in `specs/Text.antt`, and what is wrong with other bytes in
//! `specs/TextFault.antt`.
#![tactic(auto)]

mod letter;
mod short;
mod text;
mod text_fault;

pub use letter::first_bad_byte;
pub use short::{ShortBytes, put_into, take_into, take_short};
pub use text::{is_text_of, put_text, take_text, text_has_len, text_of_one_list, texts_are_found};
pub use text_fault::TextFault;
