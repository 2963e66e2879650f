//! The texts that tell of the program itself.

/// What `--help` prints: at most 24 lines of at most 80 columns.
pub(crate) const HELP: &[u8] = b"\
fko looks inside: it makes and reads packets, and shows a journal, for a script.

usage: fko encode FILE NAME | decode FILE NAME
       fko generate N
       fko keygen | journal | --help | --version

  encode FILE NAME  pack each line RAND USER STAMP MESSAGE [SECONDS] of the
                    input, by the stanza NAME of the client's file FILE
  decode FILE NAME  open each line of the input, a packet, by the same stanza
  generate N        print N lines for fwknopd --trial, 1 to 100000
  keygen            print two new keys for both files
  journal           print the changes of the journal here; changes nothing
  --help            print this text; the only word
  --version         print the program's name and version; the only word

examples:
  fwknop -T -a 10.0.0.7 -A tcp/22 | fko decode .fwknoprc default
  fko generate 1000 | fwknopd --trial -c fwknopd.conf -a access.conf -q
  fko journal
";

/// What `--version` prints.
pub(crate) const VERSION: &[u8] = b"fko 0.1 (Viltsoem, packets 3.0.0)\n";
