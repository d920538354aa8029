//! Prints packets.

ghost use Rattle.std.specs.Prelude.{◌++◌, Some, codes, decimal, flat_map};
ghost use Rattle.std.specs.Option.{option_map};
ghost use Rattle.std.specs.Fmt.{WritesOnOk};
ghost use Rattle.wirebase.specs.Ipv4.{address_text};
ghost use Rattle.dhcp_wire.specs.Dhcpv4.{value_of};
ghost use Rattle.dhcp_wire.specs.Dhcpv4Display.{repr_display, fixed_display, exchange_display, hosts_display};
ghost use Rattle.dhcp_wire.specs.Dhcpv4Display.{networks_display, lists_display, requests_display, servers_display};
ghost use Rattle.dhcp_wire.specs.Dhcpv4Display.{numbers_display, times_display, count_display};
ghost use Rattle.dhcp_wire.specs.Dhcpv4Display.{named, commas, ethernet_text};

use super::repr::Repr;
use std::fmt;
use wirebase::{EthernetAddress, Ipv4Address};

/// Prints the type of the message, and each field by its name, as `DHCPv4 DISCOVER xid=1 secs=0 ..`; an option that is
/// absent is left out.
impl fmt::Display for Repr<'_> {
    ghost output = { λ repr. Some (repr_display (value_of repr)) };

    fn fmt<W: fmt::Write>(&self, f: &mut fmt::Formatter<W>) -> fmt::Result {
        self.fmt_fixed(f)?;
        self.fmt_lists(f)?;
        self.fmt_numbers(f)
    }
}

impl Repr<'_> {
    // Prints the fixed part, and the addresses given by options.
    fn fmt_fixed<W: fmt::Write>(&self, f: &mut fmt::Formatter<W>) -> fmt::Result
        ensures { WritesOnOk W.write_str_gives f.old result (fixed_display (value_of self.now)) f.new }
    {
        self.fmt_exchange(f)?;
        self.fmt_hosts(f)?;
        self.fmt_networks(f)
    }

    // Prints the type of the message, the numbers of the fixed part, and the client's hardware address.
    fn fmt_exchange<W: fmt::Write>(&self, f: &mut fmt::Formatter<W>) -> fmt::Result
        ensures { WritesOnOk W.write_str_gives f.old result (exchange_display (value_of self.now)) f.new }
    {
        write!(
            f,
            "DHCPv4 {} xid={} secs={} client_hardware_address={}",
            self.message_type, self.transaction_id, self.secs, self.client_hardware_address
        )
    }

    // Prints the addresses of client and server.
    fn fmt_hosts<W: fmt::Write>(&self, f: &mut fmt::Formatter<W>) -> fmt::Result
        ensures { WritesOnOk W.write_str_gives f.old result (hosts_display (value_of self.now)) f.new }
    {
        write!(
            f,
            " client_ip={} your_ip={} server_ip={}",
            self.client_ip, self.your_ip, self.server_ip
        )
    }

    // Prints the addresses given by options, and the rest of the fixed part.
    fn fmt_networks<W: fmt::Write>(&self, f: &mut fmt::Formatter<W>) -> fmt::Result
        ensures { WritesOnOk W.write_str_gives f.old result (networks_display (value_of self.now)) f.new }
    {
        write!(
            f,
            "{}{} relay_agent_ip={} broadcast={}{}{}{}",
            NamedIpv4("router", self.router),
            NamedIpv4("subnet_mask", self.subnet_mask),
            self.relay_agent_ip,
            self.broadcast,
            NamedIpv4("requested_ip", self.requested_ip),
            NamedEthernet("client_identifier", self.client_identifier),
            NamedIpv4("server_identifier", self.server_identifier)
        )
    }

    // Prints the lists.
    fn fmt_lists<W: fmt::Write>(&self, f: &mut fmt::Formatter<W>) -> fmt::Result
        ensures { WritesOnOk W.write_str_gives f.old result (lists_display (value_of self.now)) f.new }
    {
        self.fmt_requests(f)?;
        self.fmt_servers(f)
    }

    // Prints the list of requested options.
    fn fmt_requests<W: fmt::Write>(&self, f: &mut fmt::Formatter<W>) -> fmt::Result
        ensures { WritesOnOk W.write_str_gives f.old result (requests_display (value_of self.now)) f.new }
    {
        match self.parameter_request_list {
            Some(kinds) => write!(f, " parameter_request_list={}", Kinds(kinds)),
            None => Ok(()),
        }
    }

    // Prints the list of servers.
    fn fmt_servers<W: fmt::Write>(&self, f: &mut fmt::Formatter<W>) -> fmt::Result
        ensures { WritesOnOk W.write_str_gives f.old result (servers_display (value_of self.now)) f.new }
    {
        match &self.dns_servers {
            Some(servers) => write!(f, " dns_servers={}", Addresses(servers.as_slice())),
            None => Ok(()),
        }
    }

    // Prints the numbers given by options, and the number of additional options.
    fn fmt_numbers<W: fmt::Write>(&self, f: &mut fmt::Formatter<W>) -> fmt::Result
        ensures { WritesOnOk W.write_str_gives f.old result (numbers_display (value_of self.now)) f.new }
    {
        self.fmt_times(f)?;
        fmt_count(f, self.additional_options.len())
    }

    // Prints the numbers given by options.
    fn fmt_times<W: fmt::Write>(&self, f: &mut fmt::Formatter<W>) -> fmt::Result
        ensures { WritesOnOk W.write_str_gives f.old result (times_display (value_of self.now)) f.new }
    {
        let max_size = match self.max_size {
            Some(size) => Some(size as u32),
            None => None,
        };
        write!(
            f,
            "{}{}{}{}",
            NamedNumber("max_size", max_size),
            NamedNumber("lease_duration", self.lease_duration),
            NamedNumber("renew_duration", self.renew_duration),
            NamedNumber("rebind_duration", self.rebind_duration)
        )
    }
}

// Prints the number of additional options.
fn fmt_count<W: fmt::Write>(f: &mut fmt::Formatter<W>, count: usize) -> fmt::Result
    ensures { WritesOnOk W.write_str_gives f.old result (count_display count) f.new }
{
    if count == 0 {
        return Ok(());
    }
    write!(f, " additional_options={count}")
}

// An optional field that is printed after a space, its name and `=`: an address of IPv4.
#[derive(Clone, Copy)]
struct NamedIpv4<'a>(&'a str, Option<Ipv4Address>);

impl fmt::Display for NamedIpv4<'_> {
    ghost output = { λ field. Some (named field.0.now (option_map address_text field.1)) };

    fn fmt<W: fmt::Write>(&self, f: &mut fmt::Formatter<W>) -> fmt::Result {
        match &self.1 {
            Some(address) => write!(f, " {}={address}", self.0),
            None => Ok(()),
        }
    }
}

// An optional field that is printed after a space, its name and `=`: an address of Ethernet.
#[derive(Clone, Copy)]
struct NamedEthernet<'a>(&'a str, Option<EthernetAddress>);

impl fmt::Display for NamedEthernet<'_> {
    ghost use Rattle.wirebase.specs.HardwareAddress.{ethernet_of};

    ghost output = { λ field. Some (named field.0.now
        (option_map ethernet_text (option_map ethernet_of field.1))) };

    fn fmt<W: fmt::Write>(&self, f: &mut fmt::Formatter<W>) -> fmt::Result {
        match &self.1 {
            Some(address) => write!(f, " {}={address}", self.0),
            None => Ok(()),
        }
    }
}

// An optional field that is printed after a space, its name and `=`: a number.
#[derive(Clone, Copy)]
struct NamedNumber<'a>(&'a str, Option<u32>);

impl fmt::Display for NamedNumber<'_> {
    ghost output = { λ field. Some (named field.0.now (option_map decimal field.1)) };

    fn fmt<W: fmt::Write>(&self, f: &mut fmt::Formatter<W>) -> fmt::Result {
        match &self.1 {
            Some(number) => write!(f, " {}={number}", self.0),
            None => Ok(()),
        }
    }
}

// Kinds of option, with commas between them.
#[derive(Clone, Copy)]
pub(super) struct Kinds<'a>(pub(super) &'a [u8]);

impl fmt::Display for Kinds<'_> {
    ghost output = { λ kinds. Some (commas decimal kinds.0.now) };

    fn fmt<W: fmt::Write>(&self, f: &mut fmt::Formatter<W>) -> fmt::Result {
        let Some((first, rest)) = self.0.split_first() else {
            return Ok(());
        };
        write!(f, "{first}")?;
        fmt_more_kinds(f, rest)
    }
}

// Prints each kind after a comma.
fn fmt_more_kinds<W: fmt::Write>(f: &mut fmt::Formatter<W>, kinds: &[u8]) -> fmt::Result
    ensures { WritesOnOk W.write_str_gives f.old result
        (flat_map (λ next. codes "," ++ decimal next) kinds.now) f.new }
{
    for kind in kinds {
        write!(f, ",{kind}")?;
    }
    Ok(())
}

// Addresses, with commas between them.
#[derive(Clone, Copy)]
struct Addresses<'a>(&'a [Ipv4Address]);

impl fmt::Display for Addresses<'_> {
    ghost output = { λ addresses. Some (commas address_text addresses.0.now) };

    fn fmt<W: fmt::Write>(&self, f: &mut fmt::Formatter<W>) -> fmt::Result {
        let Some((first, rest)) = self.0.split_first() else {
            return Ok(());
        };
        write!(f, "{first}")?;
        fmt_more_addresses(f, rest)
    }
}

// Prints each address after a comma.
fn fmt_more_addresses<W: fmt::Write>(
    f: &mut fmt::Formatter<W>,
    addresses: &[Ipv4Address],
) -> fmt::Result
    ensures { WritesOnOk W.write_str_gives f.old result
        (flat_map (λ next. codes "," ++ address_text next) addresses.now) f.new }
{
    for address in addresses {
        write!(f, ",{address}")?;
    }
    Ok(())
}
