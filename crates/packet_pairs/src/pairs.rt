//! The questions that wait for an answer.

ghost use Rattle.std.specs.Prelude.{◌≡◌, map};
ghost use Rattle.packet_pairs.specs.private.Sums.{sum_in};

use crate::elapsed::nanoseconds_between;
use crate::exchange::{Exchange, Role};
use crate::key::Key;
use crate::search::{find, place_of};
use std::alloc::Global;
use std::collections::VecDeque;

/// The most questions that wait for an answer.
pub const MOST_WAITING: usize = 2_048;

/// The most questions that are remembered behind an answer, since others may answer them too.
pub const MOST_ANSWERED: usize = 64;

/// A question that was asked.
#[derive(Drop)]
pub struct Asked {
    pub(crate) key: Key,
    pub(crate) number: u64,
    time: Option<u64>,
    pub(crate) tries: u64,
}

/// The question that an answer is to.
#[derive(Debug, PartialEq, Eq, Clone, Copy)]
pub struct Answered {
    /// The number of the packet that it was asked in, for the first time.
    pub number: u64,
    /// The nanoseconds from then to the answer. None where one of the times is not known, or the answer's is the
    /// earlier one.
    pub after: Option<u64>,
}

/// What keeps a question from being kept.
#[derive(Debug, PartialEq, Eq, Clone, Copy)]
pub enum Fault {
    /// There was no memory.
    Memory,
}

impl Asked {
    ghost use Rattle.packet_pairs.specs.Pairs.{answers, asked_again, asked_of, key_in};

    /// What it has in common with its answers.
    pub fn key(&self) -> &Key
        ensures { result.now ≡ key_in self.now }
    {
        &self.key
    }

    /// The number of the packet that it was asked in, for the first time.
    pub fn number(&self) -> u64
        ensures { result ≡ (asked_of self.now).number }
    {
        self.number
    }

    /// The time of that packet, where it is known.
    pub fn time(&self) -> Option<u64>
        ensures { result ≡ (asked_of self.now).time }
    {
        self.time
    }

    /// How often it was asked.
    pub fn tries(&self) -> u64
        ensures { result ≡ (asked_of self.now).tries }
    {
        self.tries
    }

    // Counts that it is asked again.
    fn ask_again(&mut self)
        ensures { asked_of self.new ≡ asked_again (asked_of self.old) }
    {
        self.tries = self.tries.saturating_add(1);
    }

    // What an answer at this time is to it.
    fn answered(&self, time: Option<u64>) -> Answered
        ensures { result ≡ answers (asked_of self.now) time }
    {
        Answered {
            number: self.number,
            after: nanoseconds_between(self.time, time),
        }
    }
}

/// The questions that wait for an answer, in the order in which they were asked, at most `MOST_WAITING`: where there is
/// no room for another, the one that was asked first is dropped. Each takes less than 400 bytes, so that all take less
/// than 1 MB. To see a message takes time that is linear in their number.
///
/// A question that is asked again while it waits keeps the number and the time of the first try, since its asker waits
/// from then on, and any of the tries may be the one that is answered; the tries are counted. An answer takes its
/// question out. What many may answer, as a DISCOVER of DHCP or a question of LLMNR, is remembered behind its first
/// answer, so that each server that offers is told to answer: the `MOST_ANSWERED` latest of these. Another answer to
/// any other question is one to none.
#[derive(Drop)]
pub struct Pairs {
    waiting: VecDeque<Asked>,
    // The sums of their keys, in the same order: a key is compared only where the sum is the same.
    sums: VecDeque<u32>,
    // The latest first.
    answered: VecDeque<Asked>,
    dropped: u64,
    ghost summed: { sums.items ≡ map sum_in waiting.items },
}

impl Pairs {
    ghost use Rattle.std.specs.Prelude.{◌<◌, ◌++◌, [], ◌∷◌, ℕ, IfOk, IfSome, IsNone, IsOk, None, OnErr, OnOk};
    ghost use Rattle.std.specs.Prelude.{drop};
    ghost use Rattle.std.specs.VecDeque.{deque_capacity, deque_len};
    ghost use Rattle.packet_pairs.specs.Bounds.{IsWithinBounds};
    ghost use Rattle.packet_pairs.specs.Exchange.{answering, asking, exchange_of};
    ghost use Rattle.packet_pairs.specs.Key.{key_of};
    ghost use Rattle.packet_pairs.specs.Pairs.{IsUnknown, Sees, TakesMemory, asked_of, one_more, remembered};
    ghost use Rattle.packet_pairs.specs.Pairs.{state_of};
    ghost use Rattle.packet_pairs.specs.Runs.{PairsUp};
    ghost use Rattle.packet_pairs.specs.private.Places.{IsFoundAt};
    ghost use Rattle.packet_pairs.specs.private.Sums.{sum_of};

    /// No message was seen yet. A question that is new is paired with the next answer to it, unless `MOST_WAITING`
    /// other questions come in between.
    pub fn new(alloc: Global) -> Pairs
        ensures state { state_of result ≡ record { waiting = []; answered = []; dropped = 0 } }
        ensures bounds { IsWithinBounds (state_of result) }
        ensures pairs_up { PairsUp }
    {
        Pairs {
            waiting: VecDeque::new(alloc),
            sums: VecDeque::new(alloc),
            answered: VecDeque::new(alloc),
            dropped: 0,
        }
    }

    /// The questions that wait for an answer, in the order in which they were asked: those of the first slice, and then
    /// those of the second.
    pub fn waiting(&self) -> (&[Asked], &[Asked])
        ensures { map asked_of (result.0.now ++ result.1.now) ≡ (state_of self.now).waiting }
    {
        self.waiting.as_slices()
    }

    /// How many questions were dropped, since there was no room, before an answer came.
    pub fn dropped(&self) -> u64
        ensures { result ≡ (state_of self.now).dropped }
    {
        self.dropped
    }

    /// Sees the message of the packet of this number, which came at this time, in nanoseconds, where that is known.
    /// Returns the question that it answers, where it answers one. A question that is new and an answer to one that
    /// waits take memory; where there is none, nothing changes.
    pub fn see(
        &mut self,
        number: u64,
        time: Option<u64>,
        exchange: Exchange,
    ) -> Result<Option<Answered>, Fault>
        ensures sees { IfOk result (λ answer.
            Sees (state_of self.old) number time (exchange_of exchange) answer (state_of self.new)) }
        ensures fault { OnErr result (state_of self.new ≡ state_of self.old) }
        ensures memory { OnErr result (TakesMemory (state_of self.old) (exchange_of exchange)) }
        ensures bounds { IsWithinBounds (state_of self.old) → IsWithinBounds (state_of self.new) }
    {
        self.take(number, time, exchange)
    }

    // Sees a message.
    fn take(
        &mut self,
        number: u64,
        time: Option<u64>,
        exchange: Exchange,
    ) -> Result<Option<Answered>, Fault>
        ensures sees { IfOk result (λ answer.
            Sees (state_of self.old) number time (exchange_of exchange) answer (state_of self.new)) }
        ensures fault { OnErr result (state_of self.new ≡ state_of self.old) }
        ensures memory { OnErr result (TakesMemory (state_of self.old) (exchange_of exchange)) }
    {
        match exchange.role {
            Role::Asks => self.ask(number, time, exchange.key),
            Role::Answers => self.answer(time, &exchange.key),
        }
    }

    // The place of the first question that waits with this key, whose sum this is.
    fn find_waiting(&self, key: &Key, sum: u32) -> Option<usize>
        requires { sum ≡ sum_of (key_of key.now) }
        ensures some { IfSome result (IsFoundAt (key_of key.now) (state_of self.now).waiting) }
        ensures none { IsNone result → IsUnknown (key_of key.now) (state_of self.now).waiting }
    {
        let Some(place) = place_of(&self.sums, sum) else {
            return None;
        };
        if self.waiting[place].key.is(key) {
            return Some(place);
        }
        // Another key has the same sum.
        find(&self.waiting, key)
    }

    // Sees a question.
    fn ask(&mut self, number: u64, time: Option<u64>, key: Key) -> Result<Option<Answered>, Fault>
        ensures sees { IfOk result (λ answer.
            Sees (state_of self.old) number time (asking (key_of key)) answer (state_of self.new)) }
        ensures fault { OnErr result (state_of self.new ≡ state_of self.old) }
        ensures memory { OnErr result (TakesMemory (state_of self.old) (asking (key_of key))) }
    {
        let sum = key.sum();
        if let Some(place) = self.find_waiting(&key, sum) {
            self.waiting[place].ask_again();
            return Ok(None);
        }
        self.begin(number, time, key, sum)
    }

    // Keeps a question behind the others, and drops the one that was asked first where there are too many.
    fn begin(
        &mut self,
        number: u64,
        time: Option<u64>,
        key: Key,
        sum: u32,
    ) -> Result<Option<Answered>, Fault>
        requires sum { sum ≡ sum_of (key_of key) }
        requires unknown { IsUnknown (key_of key) (state_of self.old).waiting }
        ensures sees { IfOk result (λ answer.
            Sees (state_of self.old) number time (asking (key_of key)) answer (state_of self.new)) }
        ensures fault { OnErr result (state_of self.new ≡ state_of self.old) }
        ensures memory { OnErr result (TakesMemory (state_of self.old) (asking (key_of key))) }
    {
        let asked = Asked {
            key,
            number,
            time,
            tries: 1,
        };
        if self.waiting.len() < MOST_WAITING {
            return self.append(asked, sum);
        }
        self.make_room();
        self.append(asked, sum)
    }

    // Keeps a question behind the others.
    fn append(&mut self, asked: Asked, sum: u32) -> Result<Option<Answered>, Fault>
        requires { sum ≡ sum_in asked }
        ensures answer { IfOk result (λ answer. answer ≡ None) }
        ensures state { OnOk result (state_of self.new ≡ record (state_of self.old) {
          waiting = (state_of self.old).waiting ++ (asked_of asked ∷ []);
        }) }
        ensures fault { OnErr result (state_of self.new ≡ state_of self.old) }
        ensures room { deque_len self.old.waiting < deque_capacity self.old.waiting
            → deque_len self.old.sums < deque_capacity self.old.sums → IsOk result }
    {
        if self.sums.try_reserve(1).is_err() {
            return Err(Fault::Memory);
        }
        if self.waiting.push_back(asked).is_err() {
            return Err(Fault::Memory);
        }
        let _pushed = self.sums.push_back(sum);
        Ok(None)
    }

    // Drops the question that was asked first.
    fn make_room(&mut self)
        ensures state { state_of self.new ≡ record (state_of self.old) {
          waiting = drop 1 (state_of self.old).waiting;
          dropped = one_more (state_of self.old).dropped;
        } }
        ensures room { 0 < deque_len self.old.waiting → deque_len self.new.waiting < deque_capacity self.new.waiting }
        ensures room_of_sums { 0 < deque_len self.old.waiting
            → deque_len self.new.sums < deque_capacity self.new.sums }
    {
        self.waiting.pop_front();
        self.sums.pop_front();
        self.dropped = self.dropped.saturating_add(1);
    }

    // Sees an answer.
    fn answer(&mut self, time: Option<u64>, key: &Key) -> Result<Option<Answered>, Fault>
        ensures sees { IfOk result (λ answer. (number : ℕ)
            → Sees (state_of self.old) number time (answering (key_of key.now)) answer (state_of self.new)) }
        ensures fault { OnErr result (state_of self.new ≡ state_of self.old) }
        ensures memory { OnErr result (TakesMemory (state_of self.old) (answering (key_of key.now))) }
    {
        let place = match self.find_waiting(key, key.sum()) {
            Some(place) => place,
            None => return Ok(self.answer_too(time, key)),
        };
        if self.answered.try_reserve(1).is_err() {
            return Err(Fault::Memory);
        }
        match self.waiting.remove(place) {
            Some(asked) => {
                self.sums.remove(place);
                let answered = asked.answered(time);
                self.remember(asked);
                Ok(Some(answered))
            }
            None => Ok(None),
        }
    }

    // Remembers a question that was answered, where others may answer it too.
    fn remember(&mut self, asked: Asked)
        requires { deque_len self.old.answered < deque_capacity self.old.answered }
        ensures { state_of self.new ≡ record (state_of self.old) {
          answered = remembered (asked_of asked) (state_of self.old).answered;
        } }
    {
        if asked.key.goes_to_many() {
            let _pushed = self.answered.push_front(asked);
            self.answered.truncate(MOST_ANSWERED);
        }
    }

    // Sees an answer to no question that waits.
    fn answer_too(&self, time: Option<u64>, key: &Key) -> Option<Answered>
        requires { IsUnknown (key_of key.now) (state_of self.now).waiting }
        ensures { (number : ℕ)
            → Sees (state_of self.now) number time (answering (key_of key.now)) result (state_of self.now) }
    {
        match find(&self.answered, key) {
            Some(place) => Some(self.answered[place].answered(time)),
            None => None,
        }
    }
}
