//! Numbers in decimal digits, all of a number put at once.

ghost use Rattle.std.specs.Prelude.{◌≡◌, ◌+◌, ◌%◌, ◌≤◌, ◌++◌, Some, decimal, drop};
ghost use Rattle.wirebase.specs.Sink.{PutsText};
ghost use Rattle.wirebase.specs.Digits.{last_digits};

use crate::text::sink::{Sink, ToFormatter};
use std::fmt;

// The number of digits of the largest number.
const DIGITS: usize = 20;

// The numbers from 0 to 99 in two digits each.
const TWO_DIGITS: &[u8; 200] = b"\
    00010203040506070809101112131415161718192021222324\
    25262728293031323334353637383940414243444546474849\
    50515253545556575859606162636465666768697071727374\
    75767778798081828384858687888990919293949596979899";

/// Puts a number in decimal digits.
#[inline]
pub fn put_number<O, S: Sink<O>>(output: &mut O, number: u64) -> Result<(), S::Error>
    ensures { PutsText S.took output.old (decimal number) result output.new }
{
    let mut room = [0; DIGITS];
    let start = put_digits(number, &mut room);
    S::put(output, &room[start..])
}

// Puts the digits of a number at the buffer's end, from the last to the first, and returns their start.
fn put_digits(number: u64, room: &mut [u8; DIGITS]) -> usize
    ensures bound { result ≤ 20 }
    ensures digits { drop result room.new ≡ decimal number }
{
    let mut start = DIGITS;
    let mut left = number;
    while left >= 100 {
        start = put_two(left, room, start);
        left /= 100;
    }
    if left >= 10 {
        return put_two(left, room, start);
    }
    start -= 1;
    room[start] = b'0' + left as u8;
    start
}

// Puts the last two digits of a number before those that a buffer holds from `start` on, and returns their start.
#[inline(always)]
fn put_two(number: u64, room: &mut [u8; DIGITS], start: usize) -> usize
    requires least { 2 ≤ start }
    requires bound { start ≤ 20 }
    ensures digits { drop result room.new ≡ last_digits 2 number ++ drop start room.old }
    ensures place { result + 2 ≡ start }
{
    room[start - 2..start].copy_from_slice(&two_digits(number));
    start - 2
}

/// The last two digits of a number: a table costs less than a division for each.
pub fn two_digits(number: u64) -> [u8; 2]
    ensures { result ≡ last_digits 2 number }
{
    let at = 2 * (number % 100) as usize;
    [TWO_DIGITS[at], TWO_DIGITS[at + 1]]
}

/// The last nine digits of a number.
pub fn nine_digits(number: u64) -> [u8; 9]
    ensures { result ≡ last_digits 9 number }
{
    let a = last_digit(number / 100 / 100 / 100 / 100);
    let [b, c] = two_digits(number / 100 / 100 / 100);
    let [d, e] = two_digits(number / 100 / 100);
    let [f, g] = two_digits(number / 100);
    let [h, i] = two_digits(number);
    [a, b, c, d, e, f, g, h, i]
}

/// The last digit of a number.
pub fn last_digit(number: u64) -> u8
    ensures { result ≡ 48 + number % 10 }
{
    b'0' + (number % 10) as u8
}

/// A number that prints as its last two digits.
#[derive(Clone, Copy)]
pub struct TwoDigits(pub u64);

impl fmt::Display for TwoDigits {
    ghost output = { λ number. Some (last_digits 2 number.0) };

    #[tactic(auto, using(crate::proofs::Sinks::displayed))]
    fn fmt<W: fmt::Write>(&self, f: &mut fmt::Formatter<W>) -> fmt::Result {
        ToFormatter::put(f, &two_digits(self.0))
    }
}
