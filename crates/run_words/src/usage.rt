//! The usage text.

/// The version, the command lines, each with what it reads on standard input and what it writes on
/// standard output, and the statuses. It is for standard error where the words are no listed line.
pub const USAGE: &str = "\
mud 1.0.0
usage: mud COMMAND

  COMMAND                 reads                       writes
  hear dhcp               a DHCPv4 message            what it announces or leases
  hear lldp               an LLDP frame               what it announces
  check                   a usage file                what it allows, or the rule that it breaks
  frames                  a capture                   what each packet is
  judge STORE             a capture                   what becomes of each packet, and why
  snoop STORE             a capture                   the same, and the names that DNS answers teach
  tally STORE             a capture                   how often each entry decided, and what was denied
  import STORE FOLDER     nothing                     what became of each usage file there
  report STORE KIND       nothing                     a table of what the store keeps
  export STORE MAC        nothing                     what a Thing may do now, as access lists
  replay STORE            a connection's requests     the answers to them
  serve STORE PORT COUNT  nothing                     nothing: COUNT connections are answered
  drill N                 nothing                     the counts of N packets in a made network

STORE is :memory: or the path of a database file, which is made where there is none.
KIND is things, files, classes, locals, names or due.
MAC is six pairs of hex digits with colons between them.
PORT is 1 to 65535, COUNT 1 to 1000000 and N 1 to 100000, without a zero in front.
No word begins with a dash.

The status says how the command ended:
  0  it is done
  2  the words are no command: nothing was read or written
  3  the input or a file breaks a rule: the output says which
  4  a read or a write failed
  5  there wasn't enough memory
  6  an item of the store is no record: the output names it
  7  the store failed
";
