//! Collects the options of a message, in one pass.

ghost use Rattle.std.specs.Prelude.{◌≡◌, ◌++◌, List, ℕ, IsOk, IfOk, IsErr};
ghost use Rattle.opt_wire.specs.NdiscOption.{BeginsWithBlock};
ghost use Rattle.opt_wire.specs.NdiscOptionRepr.{OptionValue, value_of};
ghost use Rattle.icmp6_wire.specs.NdiscBlocks.{IsBlock, AreBlocks};
ghost use Rattle.icmp6_wire.specs.private.NdiscOptionsSeen.{kept_of, nothing, keep, Says, Notes};

use opt_wire::ndiscoption;
use opt_wire::ndiscoption::{NdiscOption, PrefixInformation, RedirectedHeader};
use opt_wire::writing::UNIT;
use wirebase::{Error, RawHardwareAddress, Result};

// The options seen so far: each field is the last option of its kind.
#[derive(Clone, Copy)]
pub(crate) struct OptionsSeen<'a> {
    pub(super) source: Option<RawHardwareAddress>,
    pub(super) target: Option<RawHardwareAddress>,
    pub(super) mtu: Option<u32>,
    pub(super) prefix_info: Option<PrefixInformation>,
    pub(super) redirected_hdr: Option<RedirectedHeader<'a>>,
}

impl<'a> OptionsSeen<'a> {
    // Notes all options of a payload, where none was noted before. Refused where it isn't blocks one after another. By
    // `&mut self`, so that the value is not copied at each call.
    #[inline(never)]
    pub(crate) fn add_all(&mut self, payload: &'a [u8]) -> Result<()>
        requires { kept_of self.old ≡ nothing }
        ensures sound { IsOk result → Says payload.now (kept_of self.new) }
        ensures reads { (options : List OptionValue) → AreBlocks payload.now options
            → IsOk result }
    {
        let mut rest = payload;
        while !rest.is_empty() {
            let (block, behind) = split_block(rest)?;
            self.add_block(block);
            rest = behind;
        }
        Ok(())
    }

    // The value before any option is noted.
    pub(crate) fn nothing() -> OptionsSeen<'a>
        ensures { kept_of result ≡ nothing }
    {
        OptionsSeen {
            source: None,
            target: None,
            mtu: None,
            prefix_info: None,
            redirected_hdr: None,
        }
    }

    // Notes the option in one more block, if there is one.
    fn add_block(&mut self, block: &'a [u8])
        ensures { Notes block.now (kept_of self.old) (kept_of self.new) }
    {
        match ndiscoption::Repr::parse(&NdiscOption::new_unchecked(block)) {
            Ok(option) => self.add(&option),
            Err(_) => {}
        }
    }

    // Notes one more option.
    fn add(&mut self, option: &ndiscoption::Repr<'a>)
        ensures { kept_of self.new ≡ keep (kept_of self.old) (value_of option.now) }
    {
        match *option {
            ndiscoption::Repr::SourceLinkLayerAddr(addr) => self.source = Some(addr),
            ndiscoption::Repr::TargetLinkLayerAddr(addr) => self.target = Some(addr),
            ndiscoption::Repr::PrefixInformation(info) => self.prefix_info = Some(info),
            ndiscoption::Repr::RedirectedHeader(header) => self.redirected_hdr = Some(header),
            ndiscoption::Repr::Mtu(mtu) => self.mtu = Some(mtu),
            ndiscoption::Repr::Unknown { .. } => {}
        }
    }
}

// The block at the front, and what follows it. Refused where the octets don't begin with a block.
pub(super) fn split_block(octets: &[u8]) -> Result<(&[u8], &[u8])>
    ensures sound { IfOk result (λ parts. IsBlock parts.0.now
        × (octets.now ≡ parts.0.now ++ parts.1.now)) }
    ensures refuses { IsErr result → (block rest : List ℕ) → IsBlock block
        → octets.now ≡ block ++ rest → ⊥ }
    ensures begins { IsErr result → BeginsWithBlock octets.now → ⊥ }
{
    let Ok(option) = NdiscOption::new_checked(octets) else {
        return Err(Error);
    };
    Ok(octets.split_at(UNIT * option.data_len() as usize))
}
