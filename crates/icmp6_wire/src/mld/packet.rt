//! The fields of queries and reports (RFC 3810 sections 5.1 and 5.2).

ghost use Rattle.std.specs.Prelude.{◌≡◌, ◌↔◌, ◌<◌, ◌+◌, ◌*◌, [], ◌∷◌, IsTrue};
ghost use Rattle.byteorder.specs.Endian.{big_bytes};
ghost use Rattle.wirebase.specs.Bytes.{Reaches, byte_of, bytes_of, number_of};
ghost use Rattle.wirebase.specs.Duration.{micros_of};
ghost use Rattle.wirebase.specs.Ipv6Address.{octets_of};
ghost use Rattle.wirebase.specs.View.{Sets, KeepsLen};
ghost use Rattle.icmp6_wire.specs.Icmpv6Packet.{inner, sqrv_field};
ghost use Rattle.icmp6_wire.specs.MldPacket.{max_resp_code_field, mcast_addr_field, qqic_field, num_srcs_field};
ghost use Rattle.icmp6_wire.specs.MldPacket.{nr_mcast_addr_rcrds_field, resp_millis, s_flag_in, qrv_in};

use super::field;
use crate::icmpv6::Packet;
use wirebase::{Duration, Ipv6Address, Octets, OctetsMut};

// The bit of a code that has an exponent and a mantissa: a code without it is a number of milliseconds.
const FLOATING: u16 = 0x8000;

// The bit of the flag S; the bits below it are the robustness variable.
const S_FLAG: u8 = 0x08;

impl<T: Octets> Packet<T> {
    /// The code of the maximum response time of a query (RFC 3810 section 5.1.3). Requires at least 6 bytes.
    pub fn max_resp_code(&self) -> u16
        requires { Reaches max_resp_code_field (T.bytes (inner self.now)) }
        ensures { result ≡ number_of max_resp_code_field (T.bytes (inner self.now)) }
    {
        self.buffer.u16_at(field::MAX_RESP_CODE)
    }

    /// The maximum response time of a query, by its code (RFC 3810 section 5.1.3): whole milliseconds, at most
    /// 8,387.584 seconds. Requires at least 6 bytes.
    #[tactic(auto, using(crate::proofs::MldTimes::times))]
    pub fn max_resp_time(&self) -> Duration
        requires { Reaches max_resp_code_field (T.bytes (inner self.now)) }
        ensures { micros_of result
            ≡ 1000 * resp_millis (number_of max_resp_code_field (T.bytes (inner self.now))) }
    {
        let code = self.max_resp_code();
        if code < FLOATING {
            return Duration::from_millis(code as u64);
        }
        let exponent = (code >> 12) & 0x7;
        let mantissa = 0x1000 | (code & 0x0fff);
        Duration::from_millis((mantissa as u64) << (exponent + 3))
    }

    /// The group that a query asks for, or `::` for all (RFC 3810 section 5.1.5). Requires at least 24 bytes.
    pub fn mcast_addr(&self) -> Ipv6Address
        requires { Reaches mcast_addr_field (T.bytes (inner self.now)) }
        ensures { octets_of result ≡ bytes_of mcast_addr_field (T.bytes (inner self.now)) }
    {
        Ipv6Address::from_octets(
            self.buffer
                .field(field::QUERY_MCAST_ADDR)
                .try_into()
                .unwrap(),
        )
    }

    /// The flag S of a query: whether routers that hear it are to leave their timers as they are (RFC 3810 section
    /// 5.1.7). Requires at least 25 bytes.
    pub fn s_flag(&self) -> bool
        requires { Reaches sqrv_field (T.bytes (inner self.now)) }
        ensures { IsTrue result ↔ (s_flag_in (T.bytes (inner self.now)) ≡ 1) }
    {
        self.buffer.u8_at(field::SQRV) / S_FLAG % 2 == 1
    }

    /// The querier's robustness variable, 0 to 7 (RFC 3810 section 5.1.8). Requires at least 25 bytes.
    pub fn qrv(&self) -> u8
        requires { Reaches sqrv_field (T.bytes (inner self.now)) }
        ensures { result ≡ qrv_in (T.bytes (inner self.now)) }
    {
        self.buffer.u8_at(field::SQRV) % S_FLAG
    }

    /// The code of the querier's interval (RFC 3810 section 5.1.9). Requires at least 26 bytes.
    pub fn qqic(&self) -> u8
        requires { Reaches qqic_field (T.bytes (inner self.now)) }
        ensures { result ≡ byte_of qqic_field (T.bytes (inner self.now)) }
    {
        self.buffer.u8_at(field::QQIC)
    }

    /// The number of sources in a query (RFC 3810 section 5.1.10). Requires at least 28 bytes.
    pub fn num_srcs(&self) -> u16
        requires { Reaches num_srcs_field (T.bytes (inner self.now)) }
        ensures { result ≡ number_of num_srcs_field (T.bytes (inner self.now)) }
    {
        self.buffer.u16_at(field::QUERY_NUM_SRCS)
    }

    /// The number of records in a report (RFC 3810 section 5.2.3). Requires at least 8 bytes.
    pub fn nr_mcast_addr_rcrds(&self) -> u16
        requires { Reaches nr_mcast_addr_rcrds_field (T.bytes (inner self.now)) }
        ensures { result ≡ number_of nr_mcast_addr_rcrds_field (T.bytes (inner self.now)) }
    {
        self.buffer.u16_at(field::NR_MCAST_RCRDS)
    }
}

impl<T: OctetsMut> Packet<T> {
    /// Writes the code of the maximum response time of a query. Requires at least 6 bytes.
    pub fn set_max_resp_code(&mut self, value: u16)
        requires { Reaches max_resp_code_field (T.bytes (inner self.old)) }
        ensures writes { Sets inner T.bytes T.put self.old self.new max_resp_code_field
            (big_bytes 2 value) }
        ensures len { KeepsLen inner T.bytes self.old self.new }
    {
        self.buffer.set_u16(field::MAX_RESP_CODE, value);
    }

    /// Writes the group that a query asks for. Requires at least 24 bytes.
    pub fn set_mcast_addr(&mut self, value: Ipv6Address)
        requires { Reaches mcast_addr_field (T.bytes (inner self.old)) }
        ensures writes { Sets inner T.bytes T.put self.old self.new mcast_addr_field (octets_of value) }
        ensures len { KeepsLen inner T.bytes self.old self.new }
    {
        self.buffer
            .set_bytes(field::QUERY_MCAST_ADDR, &value.octets());
    }

    /// Sets the flag S, and writes zeros into the reserved bits beside it. Requires at least 25 bytes.
    pub fn set_s_flag(&mut self)
        requires { Reaches sqrv_field (T.bytes (inner self.old)) }
        ensures writes { Sets inner T.bytes T.put self.old self.new sqrv_field
            ((8 + qrv_in (T.bytes (inner self.old))) ∷ []) }
        ensures len { KeepsLen inner T.bytes self.old self.new }
    {
        let qrv = self.qrv();
        self.buffer.set_u8(field::SQRV, S_FLAG + qrv);
    }

    /// Clears the flag S, and the reserved bits beside it. Requires at least 25 bytes.
    pub fn clear_s_flag(&mut self)
        requires { Reaches sqrv_field (T.bytes (inner self.old)) }
        ensures writes { Sets inner T.bytes T.put self.old self.new sqrv_field
            (qrv_in (T.bytes (inner self.old)) ∷ []) }
        ensures len { KeepsLen inner T.bytes self.old self.new }
    {
        let qrv = self.qrv();
        self.buffer.set_u8(field::SQRV, qrv);
    }

    /// Writes the querier's robustness variable, and zeros into the reserved bits; the flag stays. Requires at least 25
    /// bytes, and a value below 8.
    pub fn set_qrv(&mut self, value: u8)
        requires small { value < 8 }
        requires room { Reaches sqrv_field (T.bytes (inner self.old)) }
        ensures writes { Sets inner T.bytes T.put self.old self.new sqrv_field
            ((8 * s_flag_in (T.bytes (inner self.old)) + value) ∷ []) }
        ensures len { KeepsLen inner T.bytes self.old self.new }
    {
        let flag = self.buffer.u8_at(field::SQRV) / S_FLAG % 2;
        self.buffer.set_u8(field::SQRV, S_FLAG * flag + value);
    }

    /// Writes the code of the querier's interval. Requires at least 26 bytes.
    pub fn set_qqic(&mut self, value: u8)
        requires { Reaches qqic_field (T.bytes (inner self.old)) }
        ensures writes { Sets inner T.bytes T.put self.old self.new qqic_field (value ∷ []) }
        ensures len { KeepsLen inner T.bytes self.old self.new }
    {
        self.buffer.set_u8(field::QQIC, value);
    }

    /// Writes the number of sources in a query. Requires at least 28 bytes.
    pub fn set_num_srcs(&mut self, value: u16)
        requires { Reaches num_srcs_field (T.bytes (inner self.old)) }
        ensures writes { Sets inner T.bytes T.put self.old self.new num_srcs_field (big_bytes 2 value) }
        ensures len { KeepsLen inner T.bytes self.old self.new }
    {
        self.buffer.set_u16(field::QUERY_NUM_SRCS, value);
    }

    /// Writes the number of records in a report. Requires at least 8 bytes.
    pub fn set_nr_mcast_addr_rcrds(&mut self, value: u16)
        requires { Reaches nr_mcast_addr_rcrds_field (T.bytes (inner self.old)) }
        ensures writes { Sets inner T.bytes T.put self.old self.new nr_mcast_addr_rcrds_field
            (big_bytes 2 value) }
        ensures len { KeepsLen inner T.bytes self.old self.new }
    {
        self.buffer.set_u16(field::NR_MCAST_RCRDS, value);
    }
}
