//! The values that the configuration files share: numbers in a range, flags, names of hashes, keys and lists.
//!
//! Each reader takes a setting's value, as `fk_lines` gives it, and answers the one thing that it says or that it says
//! none. Which setting has which kind of value is not known here.
//!
//! Start at `specs/Values.antt`, which says what each kind of value is.
#![tactic(auto)]

mod flag;
mod given;
mod hash_name;
mod host;
mod items;
mod key;
mod net;
mod number;
mod pairs;
mod setting_fault;

pub use flag::read_flag;
pub use given::{Given, MOST_SETTINGS};
pub use hash_name::read_hash_name;
pub use host::{is_host, is_unbroken};
pub use items::Items;
pub use key::{KEY_LIMIT, is_base64_key, is_key, take_base64_key, take_key, take_key_of};
pub use net::{find_net, nets_are_found};
pub use number::read_number;
pub use pairs::read_pairs;
pub use setting_fault::SettingFault;
