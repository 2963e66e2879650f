ghost use Rattle.std.specs.Prelude.{◌≡◌, ◌≤◌, length, MatchResult, unwrap_or};
ghost use Rattle.std.specs.Option.{option_map};
ghost use Rattle.fk_values.specs.Given.{said_by};
ghost use Rattle.fk_values.specs.Settings.{read_of};
ghost use Rattle.fk_values.specs.Values.{number_within};
ghost use Rattle.fk_conf.specs.ReadsConf.{ReadsConf};
ghost use Rattle.fk_conf.specs.ConfErr.{IsConfErr};

use crate::conf_name::ConfName;
use crate::conf_settings::read_settings;
use crate::{Conf, ConfErr};
use fk_base::FILE_LIMIT;
use fk_lines::Line;
use fk_values::read_number;

/// Reads the daemon's configuration. It takes no memory.
pub fn read_conf(text: &[u8]) -> Result<Conf, ConfErr>
    requires { length text.now ≤ FILE_LIMIT }
    ensures { MatchResult result (ReadsConf text.now) (IsConfErr text.now) }
{
    let given = match read_settings(text) {
        Ok(given) => given,
        Err(err) => return Err(err),
    };
    let age = given.get(ConfName::MaxSpaPacketAge.number());
    let port = given.get(ConfName::UdpservPort.number());
    let live = given.get(ConfName::CycleLimit.number());
    let room = given.get(ConfName::JournalLimit.number());
    let keep = given.get(ConfName::DigestKeep.number());
    let age = number_or(age, 1, 31_536_000, 120);
    Ok(Conf {
        age: age as u32,
        port: number_or(port, 1, 65_535, 62_201) as u16,
        live: number_or(live, 1, 4096, 256) as u32,
        room: number_or(room, 16, 67_108_864, 16_777_216),
        keep: number_or(keep, 1, 31_536_000, 86_400).max(age) as u32,
    })
}

/// The number that a line's value is, or what holds without it.
fn number_or(line: Option<Line<'_>>, least: u64, most: u64, default: u64) -> u64
    requires least { least ≤ default }
    requires most { default ≤ most }
    ensures number { result ≡ unwrap_or (read_of (number_within least most) (option_map said_by line.entry)) default }
    ensures least { least ≤ result }
    ensures most { result ≤ most }
{
    match line {
        Some(line) => read_number(line.value, least, most).unwrap_or(default),
        None => default,
    }
}
