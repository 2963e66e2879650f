//! The texts that tell of the program itself.

/// What `--help` prints: at most 24 lines of at most 80 columns.
pub(crate) const HELP: &[u8] = b"\
fwknop sends a single packet that asks a server to open ports for an address.

usage: fwknop [-n NAME] [--rc-file FILE] [-A PAIRS] [-a IP | -s] [-D HOST]
              [-p PORT] [-f SECONDS] [-T]
       fwknop -k | --help | --version

  -n NAME         the stanza of the client's file; default: default
  --rc-file FILE  the client's file; default: .fwknoprc
  -A PAIRS        what to open, as tcp/22,udp/53; default: the file's ACCESS
  -a IP           the address to open it for; default: the file's ALLOW_IP
  -s              open it for the address that the packet comes from; no default
  -D HOST         the server's address or name; default: the file's SPA_SERVER
  -p PORT         its UDP port; default: the file's SPA_SERVER_PORT, else 62201
  -f SECONDS      how long; default: the file's FW_TIMEOUT, else the server's
  -T              print the packet and send nothing; default: send it
  -k              print two new keys for both files; the only word
  --help          print this text; the only word
  --version       print the program's name and version; the only word

examples:
  fwknop -k
  fwknop -n web -A tcp/22 -s
";

/// What `--version` prints.
pub(crate) const VERSION: &[u8] = b"fwknop 0.1 (Viltsoem, packets 3.0.0)\n";
