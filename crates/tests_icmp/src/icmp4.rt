mod icmpv4;
mod igmp;
