//! How far a capture is printed.

ghost use Rattle.std.specs.Prelude.{◌≡◌, ◌<◌, ◌-◌, IfSome};
ghost use Rattle.std.specs.Option.{option_map};
ghost use Rattle.capture.specs.Time.{value_of};
ghost use Rattle.dump_captures.specs.Progress.{after, begin, is_enough, is_taken, nanos_in, progress_of, time_form};
ghost use Rattle.dump_captures.specs.Progress.{time_in};
ghost use Rattle.dump_captures.specs.Moments.{nanos_of, when_text};

use crate::moment::Moment;
use crate::options::{Options, TimeForm};
use crate::tally::Outcome;
use crate::when::When;
use capture::Time;

/// How far a capture is printed, and how the times of further packets are told.
#[derive(Drop)]
pub struct Progress {
    form: TimeForm,
    // How many packets are left to be printed, where there is a number.
    left: Option<u64>,
    // The times of the first packet that has one, and of the last of those that were printed.
    first: Option<Moment>,
    last: Option<Moment>,
}

impl Progress {
    /// Before the first packet.
    pub fn new(options: &Options) -> Progress
        ensures { progress_of result ≡ begin options.now }
    {
        Progress {
            form: time_form(options),
            left: options.most,
            first: None,
            last: None,
        }
    }

    /// Whether all packets are printed that are to be.
    #[inline]
    pub fn is_enough(&self) -> bool
        ensures { result ≡ is_enough (progress_of self.now) }
    {
        self.left == Some(0)
    }

    /// How the time of the next packet is told. Requires that the time is in order.
    #[inline]
    pub fn when(&self, time: Option<Time>) -> Option<When>
        requires { IfSome time (λ time. time.nanoseconds < 1000000000) }
        ensures { option_map when_text result ≡ time_in (progress_of self.now) (option_map value_of time) }
    {
        let time = moment_of(time)?;
        let from = match self.form {
            TimeForm::Relative => self.first.unwrap_or(time),
            TimeForm::Delta => self.last.unwrap_or(time),
            TimeForm::Utc | TimeForm::Clock | TimeForm::Epoch => time,
        };
        Some(When {
            form: self.form,
            from,
            time,
        })
    }

    /// Goes on to the packet after this one. Requires that its time is in order.
    #[inline]
    pub fn pass(&mut self, time: Option<Time>, outcome: Outcome)
        requires { IfSome time (λ time. time.nanoseconds < 1000000000) }
        ensures { progress_of self.new ≡ after outcome (option_map value_of time) (progress_of self.old) }
    {
        let time = moment_of(time);
        self.first = self.first.or(time);
        if is_taken(outcome) {
            self.last = time.or(self.last);
            self.left = one_less(self.left);
        }
    }
}

// The form of times.
fn time_form(options: &Options) -> TimeForm
    ensures { result ≡ time_form options.now }
{
    let usual = if options.is_brief {
        TimeForm::Clock
    } else {
        TimeForm::Utc
    };
    options.time_form.unwrap_or(usual)
}

// The moment of a time.
fn moment_of(time: Option<Time>) -> Option<Moment>
    requires { IfSome time (λ time. time.nanoseconds < 1000000000) }
    ensures { option_map nanos_of result ≡ nanos_in (option_map value_of time) }
{
    match time {
        Some(time) => Some(Moment::of(time)),
        None => None,
    }
}

// Whether a packet was printed, or would have been.
fn is_taken(outcome: Outcome) -> bool
    ensures { result ≡ is_taken outcome }
{
    matches!(outcome, Outcome::Listed(_) | Outcome::Refused(_, _))
}

fn one_less(left: Option<u64>) -> Option<u64>
    ensures { result ≡ option_map (λ n. n - 1) left }
{
    match left {
        Some(left) => Some(left.saturating_sub(1)),
        None => None,
    }
}
