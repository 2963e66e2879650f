ghost use Rattle.std.specs.Prelude.{◌≡◌, ◌<◌, ◌≤◌, [], ◌∷◌, ◌++◌, length, slice_get, MatchOption, Some, true, false};
ghost use Rattle.std.specs.Bool.{OnFalse, OnTrue};
ghost use Rattle.fk_access.specs.AccessValues.{is_net_list, AreNetsOf};

use fk_base::Net4;
use fk_values::{Items, find_net};
use std::marker::Model;

/// The most nets of a stanza.
const NETS_LIMIT: usize = 16;

/// The nets that a stanza serves: 1 to 16. It takes no memory.
#[derive(Drop)]
pub struct NetList {
    items: [Net4; 16],
    len: usize,
}

impl Model for NetList {
    ghost use Rattle.std.specs.Prelude.{List, ◌≤◌, length, take};
    ghost use Rattle.fk_base.specs.declared.net.Net4.{Net4};

    ghost Value = { List Net4 };

    ghost view = { λ n. take n.len n.items };

    ghost invariant = { λ n. (1 ≤ n.len) × (n.len ≤ length n.items) × (length n.items ≤ 16) };
}

impl NetList {
    fn one(net: Net4) -> Self
        ensures { result ≡ net ∷ [] }
    {
        NetList {
            items: [net; 16],
            len: 1,
        }
    }

    pub fn count(&self) -> usize
        ensures count { result ≡ length self.now }
        ensures bounds { (1 ≤ result) × (result ≤ 16) }
    {
        self.len
    }

    pub fn get(&self, at: usize) -> Net4
        requires { at < length self.now }
        ensures { slice_get self.now at ≡ Some result }
    {
        let nets = self.as_slice();
        nets[at]
    }

    /// The nets in their order.
    pub fn as_slice(&self) -> &[Net4]
        ensures { result.now ≡ self.now }
    {
        &self.items[..self.len]
    }

    /// Adds the net at the end, where there is room.
    fn push(&mut self, net: Net4) -> bool
        ensures ok { OnTrue result ((length self.old < NETS_LIMIT) × (self.new ≡ self.old ++ net ∷ [])) }
        ensures full { OnFalse result (length self.old ≡ NETS_LIMIT) }
    {
        if self.len == NETS_LIMIT {
            return false;
        }
        self.items[self.len] = net;
        self.len += 1;
        true
    }
}

/// The nets of a list, where it is one.
pub(crate) fn read_nets(value: &[u8]) -> Option<NetList>
    ensures { MatchOption result
        (is_net_list value.now ≡ false)
        (λ nets. (is_net_list value.now ≡ true) × AreNetsOf value.now nets) }
{
    let mut items = Items::new(value);
    let mut nets = NetList::one(find_net(items.next()?)?);
    while let Some(item) = items.next() {
        if !nets.push(find_net(item)?) {
            return None;
        }
    }
    Some(nets)
}

pub(crate) fn is_net_list(value: &[u8]) -> bool
    ensures { result ≡ is_net_list value.now }
{
    read_nets(value).is_some()
}
