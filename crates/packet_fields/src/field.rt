//! Fields, and entries of lists.

#![tactic(auto, using(crate::proofs::Printing::gained, // what one write appends
crate::proofs::Printing::gains_both, crate::proofs::Puts::in_quotes), // texts in a row, and a string
unfolding(crate::specs::Fields::before, crate::specs::Fields::member, // what precedes a value
crate::specs::Fields::member_key, crate::specs::Fields::after, crate::specs::Fields::name_text))]

ghost use Rattle.std.specs.Prelude.{[], ◌∷◌, OnOk, Some};
ghost use Rattle.std.specs.Option.{option_map};
ghost use Rattle.packet_fields.specs.Output.{Gains};
ghost use Rattle.packet_fields.specs.Fields.{field as field_item, named as named_item, before, after, in_brackets};
ghost use Rattle.packet_fields.specs.Fields.{member_key, name_key, name_member, name_text};
ghost use Rattle.packet_fields.specs.Prints.{Prints};

use crate::form::Form;
use crate::value::{Text, Value, put_string};
use std::io;
use std::io::Write;
use wirebase::text::Sink;

/// Prints a field.
pub fn field<V: Value, W: Write>(output: &mut W, form: Form, key: &str, value: V) -> io::Result<()>
    ensures { OnOk result (Prints form (W.contents output.old) (W.contents output.new)
        (field_item key.now (V.leaf value) ∷ [])) }
{
    begin(output, form, key)?;
    value.put(output, form)?;
    end(output, form)
}

/// Prints a number, and its name where it has one.
pub fn named<W: Write>(
    output: &mut W,
    form: Form,
    key: &str,
    number: u64,
    name: Option<&str>,
) -> io::Result<()>
    ensures { OnOk result (Prints form (W.contents output.old) (W.contents output.new)
        (named_item key.now number (option_map (λ name. name.now) name.entry) ∷ [])) }
{
    begin(output, form, key)?;
    number.put(output, form)?;
    show_name(output, form, key, name)?;
    end(output, form)
}

// Prints a number's name after it.
fn show_name<W: Write>(output: &mut W, form: Form, key: &str, name: Option<&str>) -> io::Result<()>
    ensures { OnOk result (Gains (W.contents output.old) (W.contents output.new)
        (name_text form key.now (option_map (λ name. name.now) name.entry))) }
{
    let Some(name) = name else {
        return Ok(());
    };
    match form {
        Form::Lines => show_brackets(output, name),
        Form::Json => show_name_member(output, key, name),
    }
}

fn show_brackets<W: Write>(output: &mut W, name: &str) -> io::Result<()>
    ensures { OnOk result (Gains (W.contents output.old) (W.contents output.new) (in_brackets (Some name.now))) }
{
    output.write_all(b" (")?;
    output.write_all(name.as_bytes())?;
    output.write_all(b")")
}

// Prints what precedes a value.
fn begin<W: Write>(output: &mut W, form: Form, key: &str) -> io::Result<()>
    ensures { OnOk result (Gains (W.contents output.old) (W.contents output.new)
        (before form key.now)) }
{
    match form {
        Form::Lines => {
            output.write_all(b"  ")?;
            output.write_all(key.as_bytes())?;
            output.write_all(b"=")
        }
        Form::Json => show_member_key(output, key),
    }
}

// Prints what follows a value.
fn end<W: Write>(output: &mut W, form: Form) -> io::Result<()>
    ensures { OnOk result (Gains (W.contents output.old) (W.contents output.new)
        (after form)) }
{
    match form {
        Form::Lines => output.write_all(b"\n"),
        Form::Json => Ok(()),
    }
}

// Prints a number's name as a member of its own.
fn show_name_member<W: Write>(output: &mut W, key: &str, name: &str) -> io::Result<()>
    ensures { OnOk result (Gains (W.contents output.old) (W.contents output.new)
        (name_member key.now (Some name.now))) }
{
    show_member_key(output, NameKey(key))?;
    put_string(output, name)
}

// The key of a number's name.
#[derive(Clone, Copy)]
struct NameKey<'a>(&'a str);

impl Text for NameKey<'_> {
    ghost text_of = { λ key. name_key key.0.now };

    #[tactic(auto, using(wirebase::proofs::Sinks::puts))]
    fn put_into<O, S: Sink<O>>(self, output: &mut O) -> Result<(), S::Error> {
        S::put_str(output, self.0)?;
        S::put_str(output, "_name")
    }
}

/// Prints a comma, the key of a member, and a colon.
pub(crate) fn show_member_key<T: Text, W: Write>(output: &mut W, key: T) -> io::Result<()>
    ensures { OnOk result (Gains (W.contents output.old) (W.contents output.new) (member_key (T.text_of key))) }
{
    output.write_all(b",")?;
    put_string(output, key)?;
    output.write_all(b":")
}
