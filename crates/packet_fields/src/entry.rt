//! Entries of lists: a line each, or an object of a JSON array.

#![tactic(auto, using(crate::proofs::Printing::gained, crate::proofs::Printing::gains_none, // texts
crate::proofs::Printing::gains_both, crate::proofs::Fields::cell_on_ok), // and cells in a row
unfolding(crate::specs::Fields::member, crate::specs::Fields::cell_before, crate::specs::Fields::keyed_before, // cells
crate::specs::Fields::entry_before, crate::specs::Fields::first_text, crate::specs::Fields::entry_after, // entries
crate::specs::Fields::list_before, crate::specs::Fields::list_after))]

ghost use Rattle.std.specs.Prelude.{◌++◌, [], ◌∷◌, OnOk, codes, decimal};
ghost use Rattle.packet_fields.specs.Output.{Gains};
ghost use Rattle.packet_fields.specs.Fields.{bare, keyed, hidden, cell_before, keyed_before, by_form, comma_unless, leaf_text};
ghost use Rattle.packet_fields.specs.Fields.{member as member_text, number as number_leaf};
ghost use Rattle.packet_fields.specs.Fields.{entry_before, first_text, entry_after, list_before, list_after};
ghost use Rattle.packet_fields.specs.Prints.{PrintsCells};
ghost use Rattle.packet_fields.specs.declared.form.Form.TheVariants.{Json};

use crate::field::show_member_key;
use crate::form::Form;
use crate::value::{Text, Value, put_string, put_text};
use std::io;
use std::io::Write;

/// Prints what precedes the entries of a list.
pub fn open_list<W: Write>(output: &mut W, form: Form, key: &str) -> io::Result<()>
    ensures { OnOk result (Gains (W.contents output.old) (W.contents output.new) (list_before form key.now)) }
{
    match form {
        Form::Lines => Ok(()),
        Form::Json => {
            show_member_key(output, key)?;
            output.write_all(b"[")
        }
    }
}

/// Prints what follows the entries of a list.
pub fn close_list<W: Write>(output: &mut W, form: Form) -> io::Result<()>
    ensures { OnOk result (Gains (W.contents output.old) (W.contents output.new) (list_after form)) }
{
    match form {
        Form::Lines => Ok(()),
        Form::Json => output.write_all(b"]"),
    }
}

/// Prints what an entry begins with: what it is.
pub fn open_entry<L: Text, W: Write>(
    output: &mut W,
    form: Form,
    is_first: bool,
    label_key: &str,
    label: L,
) -> io::Result<()>
    ensures { OnOk result (Gains (W.contents output.old) (W.contents output.new)
        (entry_before form is_first label_key.now (L.text_of label))) }
{
    match form {
        Form::Lines => {
            output.write_all(b"  ")?;
            put_text(output, form, label)?;
            output.write_all(b"=")
        }
        Form::Json => {
            show_comma(output, is_first)?;
            output.write_all(b"{")?;
            put_string(output, label_key)?;
            output.write_all(b":")?;
            put_string(output, label)
        }
    }
}

// Prints a comma between objects.
fn show_comma<W: Write>(output: &mut W, is_first: bool) -> io::Result<()>
    ensures { OnOk result (Gains (W.contents output.old) (W.contents output.new) (comma_unless is_first)) }
{
    if is_first {
        return Ok(());
    }
    output.write_all(b",")
}

/// Prints the end of an entry.
pub fn close_entry<W: Write>(output: &mut W, form: Form) -> io::Result<()>
    ensures { OnOk result (Gains (W.contents output.old) (W.contents output.new) (entry_after form)) }
{
    match form {
        Form::Lines => output.write_all(b"\n"),
        Form::Json => output.write_all(b"}"),
    }
}

/// Prints the first value of an entry.
pub fn first_cell<V: Value, W: Write>(
    output: &mut W,
    form: Form,
    key: &str,
    value: V,
) -> io::Result<()>
    ensures { OnOk result (Gains (W.contents output.old) (W.contents output.new)
        (first_text form key.now (V.leaf value))) }
{
    match form {
        Form::Lines => value.put(output, form),
        Form::Json => show_member(output, key, value),
    }
}

/// Prints a further value of an entry.
pub fn cell<V: Value, W: Write>(output: &mut W, form: Form, key: &str, value: V) -> io::Result<()>
    ensures { OnOk result (PrintsCells form (W.contents output.old) (W.contents output.new)
        (record { key = key.now; value = V.leaf value; shown = bare } ∷ [])) }
{
    before_cell(output, form, key)?;
    value.put(output, form)
}

/// Prints a further value of an entry, in lines too with its key.
pub fn keyed_cell<V: Value, W: Write>(
    output: &mut W,
    form: Form,
    key: &str,
    value: V,
) -> io::Result<()>
    ensures { OnOk result (PrintsCells form (W.contents output.old) (W.contents output.new)
        (record { key = key.now; value = V.leaf value; shown = keyed } ∷ [])) }
{
    before_keyed_cell(output, form, key)?;
    value.put(output, form)
}

/// Prints a number of an entry that is shown in JSON alone.
pub fn hidden_number<W: Write>(output: &mut W, form: Form, key: &str, number: u64) -> io::Result<()>
    ensures { OnOk result (PrintsCells form (W.contents output.old) (W.contents output.new)
        (record { key = key.now; value = number_leaf number; shown = hidden } ∷ [])) }
{
    show_hidden(output, form, key, number)
}

fn show_hidden<W: Write>(output: &mut W, form: Form, key: &str, number: u64) -> io::Result<()>
    ensures { OnOk result (Gains (W.contents output.old) (W.contents output.new)
        (by_form form [] (member_text key.now (decimal number)))) }
{
    match form {
        Form::Lines => Ok(()),
        Form::Json => show_member(output, key, number),
    }
}

// Prints what precedes a further value.
fn before_cell<W: Write>(output: &mut W, form: Form, key: &str) -> io::Result<()>
    ensures { OnOk result (Gains (W.contents output.old) (W.contents output.new)
        (cell_before form key.now)) }
{
    match form {
        Form::Lines => output.write_all(b" "),
        Form::Json => show_member_key(output, key),
    }
}

fn before_keyed_cell<W: Write>(output: &mut W, form: Form, key: &str) -> io::Result<()>
    ensures { OnOk result (Gains (W.contents output.old) (W.contents output.new)
        (keyed_before form key.now)) }
{
    match form {
        Form::Lines => show_key(output, key),
        Form::Json => show_member_key(output, key),
    }
}

fn show_key<W: Write>(output: &mut W, key: &str) -> io::Result<()>
    ensures { OnOk result (Gains (W.contents output.old) (W.contents output.new)
        (codes " " ++ key.now ++ codes "=")) }
{
    output.write_all(b" ")?;
    output.write_all(key.as_bytes())?;
    output.write_all(b"=")
}

// Prints a member of an object.
fn show_member<V: Value, W: Write>(output: &mut W, key: &str, value: V) -> io::Result<()>
    ensures { OnOk result (Gains (W.contents output.old) (W.contents output.new)
        (member_text key.now (leaf_text Json (V.leaf value)))) }
{
    show_member_key(output, key)?;
    value.put(output, Form::Json)
}
