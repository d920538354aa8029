mod dns;
mod dns_name;
