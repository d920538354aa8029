mod icmpv4_error;
mod icmpv6_error;
mod message;
