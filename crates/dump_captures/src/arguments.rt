//! The arguments of the program.

ghost use Rattle.std.specs.Prelude.{◌≡◌, IfOk, IfErr, IfSome, IfNone, MatchResult, drop, map, string_bytes};
ghost use Rattle.std.specs.Option.{option_map};
ghost use Rattle.std.specs.Vec.Iter.{into_iter_items};
ghost use Rattle.dump_captures.specs.Arguments.{only_of, is_option, with_color, with_flag, with_given, with_only};
ghost use Rattle.dump_captures.specs.Arguments.{with_most, with_setting, with_time_form, with_value, with_word, more};
ghost use Rattle.dump_captures.specs.Arguments.{at_end, nothing_read, task_of};
ghost use Rattle.dump_captures.specs.Tasks.{HasHost, HasNameOf, IsNoHost, IsNoName, IsTask};
ghost use Rattle.dump_captures.specs.Ports.{with_ports};
ghost use Rattle.dump_captures.specs.Settings.{color_in, count_in, option_in, setting_of, time_form_in, value_in};
ghost use Rattle.dump_captures.specs.private.Parts.{reading_of, reads_of};

use crate::Fault;
use crate::host::Host;
use crate::nearest::nearest;
pub use crate::only::read_only;
use crate::options::Options;
use crate::settings::{Setting, color_in, count_in, setting_of, split, time_form_in};
use packet_fields::Form;
use record_wire::Name;
use std::alloc::Global;
use std::env::Args;

/// What the program is asked to do.
#[derive(Drop)]
pub enum Task {
    /// To print the help.
    Help,
    /// To print the version.
    Version,
    /// To print the captures of these files, or of standard input where there are none.
    Dump(Options, Vec<String>),
    /// Something unknown.
    Unknown(Wrong),
}

/// What is wrong with the arguments.
#[derive(Drop)]
pub enum Wrong {
    /// This is not an option; the one that is nearest.
    UnknownOption(String, Option<&'static str>),
    /// This item of a list of kinds is none; the name that is nearest.
    UnknownKind(String, Option<&'static str>),
    /// This is not a value of the option.
    BadValue(Setting, String),
    /// No value follows the option.
    MissingValue(Setting),
    /// An argument is not UTF-8, and so none was read.
    NotText,
}

// The options, and the names of packets, for a word that is neither.
const OPTIONS: [&str; 15] = [
    "--only",
    "--host",
    "--name",
    "--time",
    "--port",
    "--color",
    "--count",
    "--json",
    "--brief",
    "--pairs",
    "--stats",
    "--verbose",
    "--strict",
    "--help",
    "--version",
];

const NAMES: [&str; 11] = [
    "icmp4", "igmp", "icmp6", "dns", "mdns", "llmnr", "nbns", "dhcp", "frame", "icmp", "hbh",
];

// The arguments so far.
#[derive(Drop)]
struct Reading {
    // The options so far.
    options: Options,
    // The texts of the host and of the name.
    host: Option<String>,
    name: Option<String>,
    files: Vec<String>,
    // The option whose value the next argument is.
    wants: Option<Setting>,
    // Whether all further arguments are files.
    wants_files: bool,
}

// The effect of an argument.
#[derive(Drop)]
enum Step {
    // More arguments are read.
    More,
    // The task.
    Help,
    Version,
    Unknown(Wrong),
}

/// The task of these arguments, the first of which is the program's name.
pub fn read_task(alloc: Global, arguments: Args) -> Result<Task, Fault>
    ensures task { IfOk result (λ task. IsTask (task_of (map string_bytes (drop 1 (into_iter_items arguments)))) task) }
    ensures fault { IfErr result (λ fault. fault ≡ Fault.Memory) }
{
    let mut reading = Reading::new(alloc);
    for argument in arguments.skip(1) {
        match reading.read(alloc, argument)? {
            Step::More => (),
            Step::Help => return Ok(Task::Help),
            Step::Version => return Ok(Task::Version),
            Step::Unknown(wrong) => return Ok(Task::Unknown(wrong)),
        }
    }
    Ok(reading.task())
}

impl Reading {
    // None.
    fn new(alloc: Global) -> Reading
        ensures { reading_of result ≡ nothing_read }
    {
        Reading {
            options: Options::ALL,
            host: None,
            name: None,
            files: Vec::new(alloc),
            wants: None,
            wants_files: false,
        }
    }

    // The task where no further argument follows.
    fn task(self) -> Task
        ensures { IsTask (at_end (more (reading_of self))) result }
    {
        let Reading {
            options,
            host,
            name,
            files,
            wants,
            ..
        } = self;
        if let Some(setting) = wants {
            return Task::Unknown(Wrong::MissingValue(setting));
        }
        let options = match with_host(options, host) {
            Ok(options) => options,
            Err(wrong) => return Task::Unknown(wrong),
        };
        match with_name_of(options, name) {
            Ok(options) => Task::Dump(options, files),
            Err(wrong) => Task::Unknown(wrong),
        }
    }

    // Reads an argument.
    fn read(&mut self, alloc: Global, argument: String) -> Result<Step, Fault>
        ensures step { IfOk result (λ step. reads_of step (reading_of self.new)
            ≡ with_word (string_bytes argument) (reading_of self.old)) }
        ensures fault { IfErr result (λ fault. fault ≡ Fault.Memory) }
    {
        if let Some(setting) = self.wants {
            self.wants = None;
            return self.read_value(alloc, setting, argument);
        }
        if self.wants_files || !is_option(argument.as_str()) {
            let Ok(()) = self.files.push(argument) else {
                return Err(Fault::Memory);
            };
            return Ok(Step::More);
        }
        match self.read_flag(argument.as_str()) {
            Some(step) => Ok(step),
            None => self.read_setting(alloc, argument),
        }
    }

    // Reads an option that has no value.
    fn read_flag(&mut self, word: &str) -> Option<Step>
        ensures read { IfSome result (λ step. with_flag word.now (reading_of self.old)
            ≡ Some (reads_of step (reading_of self.new))) }
        ensures none { IfNone result (with_flag word.now (reading_of self.old) ≡ None) }
        ensures same { IfNone result (reading_of self.new ≡ reading_of self.old) }
    {
        if word == "--count" {
            self.options.prints = false;
            return Some(Step::More);
        }
        if word == "--json" {
            self.options.form = Form::Json;
            self.options.is_brief = false;
            return Some(Step::More);
        }
        if word == "--brief" || word == "-1" {
            self.options.form = Form::Lines;
            self.options.is_brief = true;
            return Some(Step::More);
        }
        if word == "--verbose" || word == "-v" {
            self.options.is_verbose = true;
            return Some(Step::More);
        }
        if word == "--pairs" {
            self.options.pairs = true;
            return Some(Step::More);
        }
        if word == "--stats" {
            self.options.stats = true;
            return Some(Step::More);
        }
        if word == "--strict" {
            self.options.is_strict = true;
            return Some(Step::More);
        }
        if word == "--" {
            self.wants_files = true;
            return Some(Step::More);
        }
        if word == "-n" || word == "-r" {
            return Some(Step::More);
        }
        if word == "-nn" || word == "-nr" {
            return Some(Step::More);
        }
        if word == "--help" || word == "-h" {
            return Some(Step::Help);
        }
        if word == "--version" || word == "-V" {
            return Some(Step::Version);
        }
        None
    }

    // Reads an option that has a value, which the same word may hold.
    fn read_setting(&mut self, alloc: Global, word: String) -> Result<Step, Fault>
        ensures step { IfOk result (λ step. reads_of step (reading_of self.new)
            ≡ with_setting (setting_of (option_in (string_bytes word))) (value_in (string_bytes word))
            (string_bytes word) (reading_of self.old)) }
        ensures fault { IfErr result (λ fault. fault ≡ Fault.Memory) }
    {
        let (option, value) = split(word.as_str(), '=');
        let Some(setting) = setting_of(option) else {
            let near = nearest(alloc, option, &OPTIONS)?;
            return Ok(Step::Unknown(Wrong::UnknownOption(word, near)));
        };
        let Some(value) = value else {
            self.wants = Some(setting);
            return Ok(Step::More);
        };
        let value = copy_of(alloc, value)?;
        self.read_value(alloc, setting, value)
    }

    // Reads the value of an option.
    fn read_value(&mut self, alloc: Global, setting: Setting, text: String) -> Result<Step, Fault>
        ensures step { IfOk result (λ step. reads_of step (reading_of self.new)
            ≡ with_value setting (string_bytes text) (reading_of self.old)) }
        ensures fault { IfErr result (λ fault. fault ≡ Fault.Memory) }
    {
        match setting {
            Setting::Only => self.read_kinds(alloc, text.as_str()),
            Setting::Most => Ok(self.read_most(text)),
            Setting::Host => {
                self.host = Some(text);
                Ok(Step::More)
            }
            Setting::Name => {
                self.name = Some(text);
                Ok(Step::More)
            }
            Setting::Time => Ok(self.read_time_form(text)),
            Setting::Port => Ok(self.read_port(text)),
            Setting::Color => Ok(self.read_color(text)),
        }
    }

    // Reads a list of names after `--only`.
    fn read_kinds(&mut self, alloc: Global, list: &str) -> Result<Step, Fault>
        ensures step { IfOk result (λ step. reads_of step (reading_of self.new)
            ≡ with_only (only_of list.now) (reading_of self.old)) }
        ensures fault { IfErr result (λ fault. fault ≡ Fault.Memory) }
    {
        match read_only(list) {
            Ok(only) => {
                self.options.only = only;
                Ok(Step::More)
            }
            Err(name) => {
                let near = nearest(alloc, name, &NAMES)?;
                Ok(Step::Unknown(Wrong::UnknownKind(copy_of(alloc, name)?, near)))
            }
        }
    }

    // Reads the number after `-c`.
    fn read_most(&mut self, text: String) -> Step
        ensures { reads_of result (reading_of self.new)
            ≡ with_most (count_in (string_bytes text)) (string_bytes text) (reading_of self.old) }
    {
        let Some(most) = count_in(text.as_str()) else {
            return Step::Unknown(Wrong::BadValue(Setting::Most, text));
        };
        self.options.most = Some(most);
        Step::More
    }

    // Reads the form after `--time`.
    fn read_time_form(&mut self, text: String) -> Step
        ensures { reads_of result (reading_of self.new)
            ≡ with_time_form (time_form_in (string_bytes text)) (string_bytes text) (reading_of self.old) }
    {
        let Some(time_form) = time_form_in(text.as_str()) else {
            return Step::Unknown(Wrong::BadValue(Setting::Time, text));
        };
        self.options.time_form = Some(time_form);
        Step::More
    }

    // Reads where lines are colored, after `--color`.
    fn read_color(&mut self, text: String) -> Step
        ensures { reads_of result (reading_of self.new)
            ≡ with_color (color_in (string_bytes text)) (string_bytes text) (reading_of self.old) }
    {
        let Some(color) = color_in(text.as_str()) else {
            return Step::Unknown(Wrong::BadValue(Setting::Color, text));
        };
        self.options.color = color;
        Step::More
    }

    // Reads the kind and the port after `--port`.
    fn read_port(&mut self, text: String) -> Step
        ensures { reads_of result (reading_of self.new)
            ≡ with_given (with_ports self.old.options.ports (string_bytes text)) (string_bytes text)
            (reading_of self.old) }
    {
        let Some(ports) = self.options.ports.with(text.as_str()) else {
            return Step::Unknown(Wrong::BadValue(Setting::Port, text));
        };
        self.options.ports = ports;
        Step::More
    }
}

// The options with the host of a text, where there is one.
fn with_host(options: Options, text: Option<String>) -> Result<Options, Wrong>
    ensures { MatchResult result (HasHost options (option_map string_bytes text))
        (IsNoHost (option_map string_bytes text)) }
{
    let Some(text) = text else {
        return Ok(options);
    };
    let Some(host) = Host::read(text.as_str()) else {
        return Err(Wrong::BadValue(Setting::Host, text));
    };
    let mut options = options;
    options.host = Some(host);
    Ok(options)
}

// The options with the name of a text, where there is one.
fn with_name_of(options: Options, text: Option<String>) -> Result<Options, Wrong>
    ensures { MatchResult result (HasNameOf options (option_map string_bytes text))
        (IsNoName (option_map string_bytes text)) }
{
    let Some(text) = text else {
        return Ok(options);
    };
    let Ok(name) = Name::from_text(text.as_str().as_bytes()) else {
        return Err(Wrong::BadValue(Setting::Name, text));
    };
    let mut options = options;
    options.name = Some(name);
    Ok(options)
}

fn copy_of(alloc: Global, text: &str) -> Result<String, Fault>
    ensures copy { IfOk result (λ copy. string_bytes copy ≡ text.now) }
    ensures fault { IfErr result (λ fault. fault ≡ Fault.Memory) }
{
    let mut copy = String::new(alloc);
    let Ok(()) = copy.push_str(text) else {
        return Err(Fault::Memory);
    };
    Ok(copy)
}

// Whether an argument begins with a hyphen, and is not a hyphen alone.
fn is_option(word: &str) -> bool
    ensures { result ≡ is_option word.now }
{
    let octets = word.as_bytes();
    octets.len() > 1 && octets[0] == b'-'
}
