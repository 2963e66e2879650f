ghost use Rattle.std.specs.Prelude.{◌≡◌, ◌<◌, find};
ghost use Rattle.std.specs.Str.{bytes_eq};
ghost use Rattle.fk_conf.specs.Conf.{conf_names, conf_rule};

use fk_values::{MOST_SETTINGS, read_number};

/// A name of the daemon's configuration.
#[derive(Clone, Copy)]
pub(crate) enum ConfName {
    MaxSpaPacketAge,
    UdpservPort,
    CycleLimit,
    JournalLimit,
    DigestKeep,
    EnableUdpServer,
    EnableSpaPacketAging,
    EnableDigestPersistence,
    PcapIntf,
    PcapFilter,
    EnablePcapPromisc,
    SyslogIdentity,
    SyslogFacility,
    FwknopRunDir,
}

const CONF_NAMES: [ConfName; 14] = [
    ConfName::MaxSpaPacketAge,
    ConfName::UdpservPort,
    ConfName::CycleLimit,
    ConfName::JournalLimit,
    ConfName::DigestKeep,
    ConfName::EnableUdpServer,
    ConfName::EnableSpaPacketAging,
    ConfName::EnableDigestPersistence,
    ConfName::PcapIntf,
    ConfName::PcapFilter,
    ConfName::EnablePcapPromisc,
    ConfName::SyslogIdentity,
    ConfName::SyslogFacility,
    ConfName::FwknopRunDir,
];

impl ConfName {
    /// The name that a line has.
    pub(crate) fn of(text: &[u8]) -> Option<Self>
        ensures { result ≡ find (λ name. bytes_eq (conf_rule name).name text.now) conf_names }
    {
        CONF_NAMES.iter().copied().find(|name| name.text() == text)
    }

    fn text(self) -> &'static [u8]
        ensures { result.now ≡ (conf_rule self).name }
    {
        match self {
            ConfName::MaxSpaPacketAge => b"MAX_SPA_PACKET_AGE",
            ConfName::UdpservPort => b"UDPSERV_PORT",
            ConfName::CycleLimit => b"CYCLE_LIMIT",
            ConfName::JournalLimit => b"JOURNAL_LIMIT",
            ConfName::DigestKeep => b"DIGEST_KEEP",
            ConfName::EnableUdpServer => b"ENABLE_UDP_SERVER",
            ConfName::EnableSpaPacketAging => b"ENABLE_SPA_PACKET_AGING",
            ConfName::EnableDigestPersistence => b"ENABLE_DIGEST_PERSISTENCE",
            ConfName::PcapIntf => b"PCAP_INTF",
            ConfName::PcapFilter => b"PCAP_FILTER",
            ConfName::EnablePcapPromisc => b"ENABLE_PCAP_PROMISC",
            ConfName::SyslogIdentity => b"SYSLOG_IDENTITY",
            ConfName::SyslogFacility => b"SYSLOG_FACILITY",
            ConfName::FwknopRunDir => b"FWKNOP_RUN_DIR",
        }
    }

    /// The number of what it sets.
    pub(crate) fn number(self) -> usize
        ensures number { result ≡ (conf_rule self).sets }
        ensures within { result < MOST_SETTINGS }
    {
        self as usize
    }

    /// Whether this can be its value.
    pub(crate) fn is_value(self, value: &[u8]) -> bool
        ensures { result ≡ (conf_rule self).is_value value.now }
    {
        match self {
            ConfName::MaxSpaPacketAge | ConfName::DigestKeep => {
                read_number(value, 1, 31_536_000).is_some()
            }
            ConfName::UdpservPort => read_number(value, 1, 65_535).is_some(),
            ConfName::CycleLimit => read_number(value, 1, 4096).is_some(),
            ConfName::JournalLimit => read_number(value, 16, 67_108_864).is_some(),
            ConfName::EnableUdpServer
            | ConfName::EnableSpaPacketAging
            | ConfName::EnableDigestPersistence => value == b"Y".as_slice(),
            ConfName::PcapIntf
            | ConfName::PcapFilter
            | ConfName::EnablePcapPromisc
            | ConfName::SyslogIdentity
            | ConfName::SyslogFacility
            | ConfName::FwknopRunDir => true,
        }
    }
}
