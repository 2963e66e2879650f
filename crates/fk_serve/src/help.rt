//! The texts that tell of the program itself.

/// What `--help` prints: at most 24 lines of at most 80 columns.
pub(crate) const HELP: &[u8] = b"\
fwknopd serves single packets that ask for a port, and closes it in time.

usage: fwknopd -f -c FILE -a FILE [-C N] [--turns N] [-v]
       fwknopd --trial -c FILE -a FILE [-q] [-v]
       fwknopd --fw-list | --help | --version

  -f          serve, in the foreground, what comes to the configured UDP port
  --trial     show what the lines of standard input would start; starts nothing
  --fw-list   print the live records of the journal; changes nothing
  -c FILE     the configuration's file; no default
  -a FILE     the access file; no default
  -C N        end after N packets, 1 to 1000000000; default: no limit
  --turns N   end after N turns, 1 to 1000000000; default: 9223372036854775807
  -v          print a line at the beginning of each turn too
  -q          print the summary or the fault alone
  --help      print this text; the only word
  --version   print the program's name and version; the only word

examples:
  fwknopd -f -c fwknopd.conf -a access.conf
  fwknopd --fw-list
";

/// What `--version` prints.
pub(crate) const VERSION: &[u8] = b"fwknopd 0.1 (Viltsoem, packets 3.0.0)\n";
