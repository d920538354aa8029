//! The records of a capture, read one after another in bounded memory.

ghost use Rattle.std.specs.Prelude.{◌≡◌, ◌≤◌, ◌⊎◌, ◌↔◌, ℕ, List, [], IfOk, IfErr, IfSome, IsTrue, length};
ghost use Rattle.capture.specs.Capture.{IfRecord, state, state_of, octets_of, count_of, packet_of, GivesNext};
ghost use Rattle.capture.specs.Capture.{IsInOrder, ShowsUnit};
ghost use Rattle.capture.specs.Packet.{packet_in, IsPlace};
ghost use Rattle.capture.specs.private.Reader.{Reads};
ghost use Rattle.capture.specs.private.Taken.{BlockTakes, BlockGives, StepGives, SectionTakes, InterfaceTakes};
ghost use Rattle.capture.specs.private.Taken.{PacketTakes, IfPacket, RecordGives, IsWholeBlock, after};

use crate::ending::{Ending, Fault, Refusal};
use crate::order::Order;
use crate::packet::Packet;
use crate::pcap::{self, FileHeader, RecordHeader};
use crate::pcapng::{self, Head, Interface};
use crate::reader::read_onto;
use crate::time::Time;
use crate::unit::{Taken, read_unit};
use std::alloc::Global;
use std::io::BufRead;

/// The most bytes of a packet that are kept.
pub const MOST_OCTETS: u32 = 262_144;

/// The most interfaces of a section.
pub const MOST_INTERFACES: usize = 65_536;

/// What a capture tells of a packet.
#[derive(Debug, PartialEq, Eq, Clone, Copy)]
pub struct Record {
    /// The number of the packet; the first is 1.
    pub number: u64,
    /// When it was captured. A simple packet of a pcapng file (draft-ietf-opsawg-pcapng section 4.4) has no time.
    pub time: Option<Time>,
    /// The type of the link.
    pub link_type: u16,
    /// The number of its bytes that are kept: at most `MOST_OCTETS`.
    pub captured_len: u32,
    /// The packet's original length in bytes.
    pub original_len: u32,
}

/// The next item of a capture.
#[derive(Debug, PartialEq, Eq, Clone, Copy)]
pub enum Next {
    /// A record; `Capture::octets` are its packet's bytes.
    Record(Record),
    /// No further record.
    Ended(Ending),
}

// How far a capture is read.
#[derive(Debug, PartialEq, Eq, Clone, Copy)]
enum Stage {
    // Nothing is read.
    Start,
    // The header of a pcap file is read.
    File(FileHeader),
    // The header of a section is read, of a pcapng file.
    Section(Order),
    // It has ended.
    End(Ending),
}

// What was read last.
#[derive(Debug, PartialEq, Eq, Clone, Copy)]
enum Step {
    // A header, a description, or a block that is passed over.
    Passed,
    // A packet.
    Packet(Packet),
    // Nothing more.
    Ended(Ending),
}

/// A capture file, read from its start. It keeps the record or block that was read last and the interfaces of the
/// section: at most 4 MB, whatever the file holds.
#[derive(Drop)]
pub struct Capture {
    stage: Stage,
    interfaces: Vec<Interface>,
    // The record or block that was read last, and the place of its packet.
    octets: Vec<u8>,
    start: usize,
    end: usize,
    // How many packets were read.
    count: u64,
}

impl Capture {
    /// A capture of which nothing is read yet.
    pub fn new(alloc: Global) -> Capture
        ensures state { state_of result ≡ state Stage.Start [] }
        ensures count { count_of result ≡ 0 }
    {
        Capture {
            stage: Stage::Start,
            interfaces: Vec::new(alloc),
            octets: Vec::new(alloc),
            start: 0,
            end: 0,
            count: 0,
        }
    }

    /// Reads the next record. Where the capture has ended, each further call says so again.
    pub fn next<R: BufRead>(&mut self, input: &mut R) -> Result<Next, Fault>
        ensures next { IfOk result (λ next. IfSome (R.remaining input.old) (λ all.
            GivesNext (state_of self.old) all next (octets_of self.new) (state_of self.new) (R.remaining input.new))) }
        ensures order { IfOk result (λ next. IfRecord next (λ r.
            IsInOrder r (octets_of self.new) (count_of self.old) (count_of self.new))) }
        ensures fault { IfErr result (λ fault. (fault ≡ Fault.Read) ⊎ (fault ≡ Fault.Memory)) }
    {
        // A bound that no input reaches: each loop has to end.
        'steps: for _ in 0..u64::MAX {
            match self.read_step(input)? {
                Step::Passed => (),
                Step::Packet(packet) => return Ok(Next::Record(self.record(packet))),
                Step::Ended(ending) => {
                    self.stage = Stage::End(ending);
                    return Ok(Next::Ended(ending));
                }
            }
        }
        Err(Fault::Read)
    }

    /// Whether these octets, which the input's buffer has, are enough for `next` not to wait: they hold the whole
    /// record or block of the next packet, and the blocks before it that hold none. It is false at the start of a
    /// capture, and before a packet whose record or block is longer than is kept; at the end it is true. A program that
    /// prints packets as they come writes out its output where this is false, before it reads on.
    #[inline]
    pub fn shows_next(&self, shown: &[u8]) -> bool
        ensures { IsTrue result ↔ ShowsUnit (state_of self.now) shown.now }
    {
        match self.stage {
            Stage::Start => false,
            Stage::File(header) => pcap::shows_record(header.order, shown),
            Stage::Section(section) => pcapng::shows_packet(section, shown),
            Stage::End(_) => true,
        }
    }

    /// The bytes of the packet that was read last.
    pub fn octets(&self) -> &[u8]
        ensures { result.now ≡ octets_of self.now }
    {
        let octets = self.octets.as_slice();
        let end = self.end.min(octets.len());
        let start = self.start.min(end);
        &octets[start..end]
    }

    // The record of a packet that was read.
    fn record(&mut self, packet: Packet) -> Record
        requires { IsPlace packet self.old.octets.items }
        ensures packet { packet_of result (octets_of self.new) ≡ packet_in packet self.old.octets.items }
        ensures state { state_of self.new ≡ state_of self.old }
        ensures order { IsInOrder result (octets_of self.new) (count_of self.old) (count_of self.new) }
    {
        self.start = packet.start;
        self.end = packet.start + packet.captured_len as usize;
        self.count = self.count.saturating_add(1);
        Record {
            number: self.count,
            time: packet.time,
            link_type: packet.link_type,
            captured_len: packet.captured_len,
            original_len: packet.original_len,
        }
    }

    // Reads the next header, record or block.
    fn read_step<R: BufRead>(&mut self, input: &mut R) -> Result<Step, Fault>
        ensures gives { IfOk result (λ step. (all : List ℕ) → Reads all (R.remaining input.old) [] 0
            → StepGives (state_of self.old) all step (after self.new (R.remaining input.new))) }
        ensures place { IfOk result (λ step. IfPacket step (λ k. IsPlace k self.new.octets.items)) }
        ensures count { count_of self.new ≡ count_of self.old }
        ensures fault { IfErr result (λ fault. (fault ≡ Fault.Read) ⊎ (fault ≡ Fault.Memory)) }
    {
        self.octets.clear();
        match self.stage {
            Stage::Start => self.read_first(input),
            Stage::File(header) => self.read_record(input, header),
            Stage::Section(section) => self.read_block(input, section),
            Stage::End(ending) => Ok(Step::Ended(ending)),
        }
    }

    // Reads the header of a file, or the first block of one.
    fn read_first<R: BufRead>(&mut self, input: &mut R) -> Result<Step, Fault>
        requires start { self.old.stage ≡ Stage.Start }
        requires empty { self.old.octets.items ≡ [] }
        ensures gives { IfOk result (λ step. (all : List ℕ) → Reads all (R.remaining input.old) [] 0
            → StepGives (state_of self.old) all step (after self.new (R.remaining input.new))) }
        ensures place { IfOk result (λ step. IfPacket step (λ k. IsPlace k self.new.octets.items)) }
        ensures count { count_of self.new ≡ count_of self.old }
        ensures fault { IfErr result (λ fault. (fault ≡ Fault.Read) ⊎ (fault ≡ Fault.Memory)) }
    {
        read_onto(input, &mut self.octets, pcapng::KIND_LEN)?;
        if pcapng::begins_section(self.octets.as_slice()) {
            return self.read_block(input, Order::Big);
        }
        read_onto(input, &mut self.octets, pcap::FILE_HEADER_LEN)?;
        match FileHeader::parse(self.octets.as_slice()) {
            Ok(header) => {
                self.stage = Stage::File(header);
                Ok(Step::Passed)
            }
            Err(ending) => Ok(Step::Ended(ending)),
        }
    }

    // Reads the next record of a file with a header.
    fn read_record<R: BufRead>(&mut self, input: &mut R, header: FileHeader) -> Result<Step, Fault>
        requires { self.old.octets.items ≡ [] }
        ensures gives { IfOk result (λ step. (all : List ℕ) → Reads all (R.remaining input.old) [] 0
            → RecordGives header all step (after self.new (R.remaining input.new))) }
        ensures place { IfOk result (λ step. IfPacket step (λ k. IsPlace k self.new.octets.items)) }
        ensures state { state_of self.new ≡ state_of self.old }
        ensures count { count_of self.new ≡ count_of self.old }
        ensures fault { IfErr result (λ fault. (fault ≡ Fault.Read) ⊎ (fault ≡ Fault.Memory)) }
    {
        let record: Taken<RecordHeader> = read_unit(input, &mut self.octets, header.order)?;
        match record {
            Taken::Passed(_) => Ok(Step::Passed),
            Taken::Read(head) => Ok(Step::Packet(pcap::packet(&header, &head))),
            Taken::Ended(ending) => Ok(Step::Ended(ending)),
        }
    }

    // Reads the next block of a section, of which some bytes may have been read.
    fn read_block<R: BufRead>(&mut self, input: &mut R, section: Order) -> Result<Step, Fault>
        requires { length self.old.octets.items ≤ 12 }
        ensures gives { IfOk result (λ step. (all : List ℕ) (done : ℕ) → done ≤ 12
            → Reads all (R.remaining input.old) self.old.octets.items done
            → BlockGives section self.old.interfaces.items all step (after self.new (R.remaining input.new))) }
        ensures place { IfOk result (λ step. IfPacket step (λ k. IsPlace k self.new.octets.items)) }
        ensures count { count_of self.new ≡ count_of self.old }
        ensures fault { IfErr result (λ fault. (fault ≡ Fault.Read) ⊎ (fault ≡ Fault.Memory)) }
    {
        let block: Taken<Head> = read_unit(input, &mut self.octets, section)?;
        match block {
            Taken::Passed(_) => {
                self.stage = Stage::Section(section);
                Ok(Step::Passed)
            }
            Taken::Read(head) => self.take_block(section, head),
            Taken::Ended(ending) => Ok(Step::Ended(ending)),
        }
    }

    // Takes the block that was read.
    fn take_block(&mut self, section: Order, head: Head) -> Result<Step, Fault>
        requires { 12 ≤ length self.old.octets.items }
        ensures takes { IfOk result (λ step. IsWholeBlock section self.old.octets.items head
            → BlockTakes section head self.old.interfaces.items self.old.octets.items step (state_of self.new)) }
        ensures place { IfOk result (λ step. IfPacket step (λ k. IsPlace k self.new.octets.items)) }
        ensures octets { self.new.octets.items ≡ self.old.octets.items }
        ensures count { count_of self.new ≡ count_of self.old }
        ensures fault { IfErr result (λ fault. fault ≡ Fault.Memory) }
    {
        let order = head.order;
        self.stage = Stage::Section(section);
        if !pcapng::is_closed(order, self.octets.as_slice()) {
            return Ok(Step::Ended(Ending::Malformed(Refusal::ClosingLength)));
        }
        if head.kind == pcapng::SECTION {
            return Ok(self.take_section(order));
        }
        if head.kind == pcapng::INTERFACE {
            return self.take_interface(order);
        }
        Ok(self.take_packet(order, head.kind))
    }

    // Takes a section header.
    fn take_section(&mut self, order: Order) -> Step
        ensures takes { SectionTakes order self.old.octets.items result (state_of self.new) }
        ensures octets { self.new.octets.items ≡ self.old.octets.items }
        ensures count { count_of self.new ≡ count_of self.old }
    {
        match pcapng::check_section(order, self.octets.as_slice()) {
            Ok(()) => {
                self.stage = Stage::Section(order);
                self.interfaces.clear();
                Step::Passed
            }
            Err(ending) => Step::Ended(ending),
        }
    }

    // Takes an interface description.
    fn take_interface(&mut self, order: Order) -> Result<Step, Fault>
        ensures takes { IfOk result (λ step. InterfaceTakes order (state_of self.old) self.old.octets.items step
            (state_of self.new)) }
        ensures octets { self.new.octets.items ≡ self.old.octets.items }
        ensures count { count_of self.new ≡ count_of self.old }
        ensures fault { IfErr result (λ fault. fault ≡ Fault.Memory) }
    {
        let interface = match Interface::parse(order, self.octets.as_slice()) {
            Ok(interface) => interface,
            Err(refusal) => return Ok(Step::Ended(Ending::Malformed(refusal))),
        };
        if self.interfaces.as_slice().len() >= MOST_INTERFACES {
            return Ok(Step::Ended(Ending::TooManyInterfaces));
        }
        match self.interfaces.push(interface) {
            Ok(()) => Ok(Step::Passed),
            Err(_) => Err(Fault::Memory),
        }
    }

    // Takes a packet of a kind.
    fn take_packet(&self, order: Order, kind: u32) -> Step
        ensures place { IfPacket result (λ k. IsPlace k self.now.octets.items) }
        ensures takes { PacketTakes order kind self.now.interfaces.items self.now.octets.items result }
    {
        let interfaces = self.interfaces.as_slice();
        match pcapng::parse_packet(order, kind, interfaces, self.octets.as_slice()) {
            Ok(packet) if packet.captured_len > MOST_OCTETS => Step::Ended(Ending::TooLarge),
            Ok(packet) => Step::Packet(packet),
            Err(refusal) => Step::Ended(Ending::Malformed(refusal)),
        }
    }
}
