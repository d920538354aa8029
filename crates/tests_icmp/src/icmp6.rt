mod icmpv6;
mod mld;
mod ndisc;
mod plain_reader;
