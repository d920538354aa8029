//! The help of the program.

/// The version.
pub const VERSION: &str = "0.14.1";

/// The usage, for a wrong argument.
pub const USAGE: &str =
    "usage: pcapdump [--only KIND,..] [--host ADDRESS[/BITS]] [--name NAME] [-c N] [--time FORM]
                [--port KIND=PORT] [--brief | --json] [--pairs] [-v] [--color WHEN] [--strict]
                [--stats | --count] [--help] [--version] [FILE..]";

/// The names after `--only`, for a list with an unknown one.
pub const KINDS: &str =
    "icmp4, igmp, icmp6, dns, mdns, llmnr, nbns, dhcp and frame, icmp for both of ICMP, and hbh";

/// The text below the usage where help is asked for.
pub const HELP: &str = "\
Prints each control packet of capture files, pcap or pcapng: a heading with its number, its time, its addresses and
its kind, and below it what it holds, a field a line. Without a file, and for -, it reads standard input.

  --only KIND,..    prints the packets of these kinds alone
  --host ADDRESS[/BITS]
                    prints those alone that are from or to this IPv4 or IPv6 address, or one with the same first BITS
  --name NAME       prints those messages of DNS, mDNS, LLMNR and the NetBIOS name service alone that have a question or
                    a record of this name or of one that ends in it
  -c N              stops reading a file after the Nth packet that is chosen
  --time FORM       tells times as `utc`, by RFC 3339; as `clock`, the time of day in UTC; as `relative`, in seconds
                    since the first packet of the file; as `delta`, in seconds since the packet that was printed before;
                    or as `epoch`, in seconds since 1970
  --port KIND=PORT  reads UDP of this port as `dns`, `mdns`, `llmnr`, `nbns` or `dhcp` too, and as `dns` also TCP; it
                    goes before the ports below, and may be given for each kind
  -1, --brief       prints each packet on a line
  -v, --verbose     adds to headings, and to lines of --brief, the addresses of Ethernet frames, the length of the
                    packet in bytes, and the TTL or the hop limit
  --color WHEN      `always`, `never` or, as it is without this, `auto`: on a terminal, unless NO_COLOR is set; headings
                    are bold then, and lines of --brief red where a packet is refused or read in part
  --json            prints each packet as an object of JSON, on a line
  --pairs           tells of an answer the packet with its question and the time between the two, and behind the last
                    packet the questions that got no answer
  --strict          refuses messages whose checksum is wrong; without it they are printed with checksum=bad
  --stats           prints in the place of packets a page of what they say: the questions, outcomes and servers of DNS,
                    with the median and the 99th percentile of the times of answers; the clients of DHCP and their
                    leases; which host reported which group; neighbors, routers and their prefixes
  --count           prints no packets but a table at the end: of each kind how many were listed and how many were
                    refused for each reason, and their octets; on standard error it sums up the rest. The table comes
                    where the input ends, also by Ctrl-C before a pipe that the script ./pcapdump reads
  -h, --help        prints this
  -V, --version     prints the version
  -r FILE           reads the file, as FILE alone does
  -n                has no effect: no name is looked up; nor has -nn, and -nr FILE is -r FILE

The value of an option is the next word, or is behind an equals sign, as in --only=dns. Of an option that comes several
times the last one counts, of --port the last one of each kind.

The kinds:

  icmp4             ICMP over IPv4
  igmp              IGMP
  icmp6             ICMP over IPv6, with multicast listener and neighbor discovery
  dns               UDP, or TCP with whole messages, where either port is 53
  mdns              UDP, where either port is 5353
  llmnr             UDP, where either port is 5355
  nbns              UDP, where either port is 137
  dhcp              UDP over IPv4, where either port is 67 or 68
  frame             what can't be read so far that its kind could be told
  icmp              with --only: icmp4 and icmp6
  hbh               with --only: those that have IPv6 hop-by-hop options, of any kind

A packet is counted once: as listed, or under one of these reasons, `cut` before `checksum`, and both before the one for
which its message is first refused. What can be read of it is printed all the same, with a mark or a line
`refused=PHRASE` that tells what is wrong.

  cut               the capture kept less of it than it takes
  fragment          it is a fragment that is not put together with others
  short             it ends before its header or its own length does
  checksum          its checksum is wrong; so is that of a packet which was captured on the host that sends it, where
                    the network card fills it in
  type              it has a type of ICMP or IGMP that is not read
  quote             it is an ICMP error that does not quote the front of a datagram
  name              it has a DNS name that does not read
  malformed         its format refuses it otherwise

Examples:

  pcapdump trace.pcap
  pcapdump --only dns,mdns --count trace.pcap more.pcapng
  pcapdump --name example.com --time=delta -c 10 trace.pcap
  pcapdump --brief --pairs trace.pcap | grep NXDOMAIN
  pcapdump --stats --only dhcp trace.pcap
  pcapdump --port dns=5300 --port mdns=5454 trace.pcap
  tcpdump --immediate-mode -U -w - | pcapdump --only icmp6
  pcapdump --json trace.pcap | jq -c 'select(.kind == \"dhcp\")'

The status is the greatest that holds: 0, 1 where a capture ends within a record or goes on with what is none, 2 where
an argument is wrong, or a file can't be opened or is no capture, 3 where reading, writing or memory failed.
The manual is crates/pcapdump/README.md.";
