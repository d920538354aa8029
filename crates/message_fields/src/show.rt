//! Messages, whole or cut.

#![tactic(auto, using(packet_fields::proofs::Fields::prints_both, packet_fields::proofs::Fields::prints_none))]

ghost use Rattle.std.specs.Prelude.{◌≡◌, ◌∷◌, [], IfOk, OnOk, Some};
ghost use Rattle.packet_fields.specs.Prints.{Prints, PrintsSome};
ghost use Rattle.message_fields.specs.Checksums.{value_of};
ghost use Rattle.message_fields.specs.Messages.{CutIs, MessageIs, first_of, state_items};
ghost use Rattle.message_fields.specs.Refusals.{cut_items, refusal_display, refused_items};
ghost use Rattle.packet_fields.specs.Fields.{field as field_item, text};

use crate::bodies::show_body;
use crate::message::{ChecksumState, Message};
use crate::refusal::Refusal;
use packet_fields::Form;
use packet_fields::field::field;
use std::alloc::Global;
use std::io;
use std::io::Write;

/// Prints a whole message: what its checksum says (in lines only where it does not hold) and its fields, as far as they
/// can be read, and returns the first reason for which it is refused or read in part. Where `is_strict` holds, a
/// message whose checksum does not hold is refused.
pub fn show_message<W: Write>(
    output: &mut W,
    form: Form,
    alloc: Global,
    message: &Message<'_>,
    is_strict: bool,
) -> io::Result<Option<Refusal>>
    ensures { IfOk result (λ why. PrintsSome form (W.contents output.old) (W.contents output.new)
        (λ items. MessageIs form is_strict (value_of message.now) items why)) }
{
    let state = message.checksum();
    if state.is_refused(is_strict) {
        show_refused(output, form, alloc, &Refusal::Checksum)?;
        return Ok(Some(Refusal::Checksum));
    }
    show_state(output, form, state)?;
    let told = show_body(output, form, alloc, message, true)?;
    Ok(first_of(state, told))
}

/// Prints a message of whose datagram the capture lacks so many bytes: their number, and the fields that are there.
pub fn show_cut_message<W: Write>(
    output: &mut W,
    form: Form,
    alloc: Global,
    message: &Message<'_>,
    missing: u64,
) -> io::Result<()>
    ensures { OnOk result (PrintsSome form (W.contents output.old) (W.contents output.new)
        (CutIs form missing (value_of message.now))) }
{
    show_state(output, form, ChecksumState::Unverified)?;
    show_cut(output, form, missing)?;
    let _told = show_body(output, form, alloc, message, false)?;
    Ok(())
}

// Prints how many bytes are missing.
pub(crate) fn show_cut<W: Write>(output: &mut W, form: Form, missing: u64) -> io::Result<()>
    ensures { OnOk result (Prints form (W.contents output.old) (W.contents output.new) (cut_items missing)) }
{
    field(output, form, "cut", missing)
}

// Prints what the checksum says.
fn show_state<W: Write>(output: &mut W, form: Form, state: ChecksumState) -> io::Result<()>
    ensures { OnOk result (Prints form (W.contents output.old) (W.contents output.new) (state_items form state)) }
{
    match form {
        Form::Lines if state != ChecksumState::Bad => Ok(()),
        _ => field(output, form, "checksum", state.name()),
    }
}

// The first of two reasons: that of the checksum, and that of the message.
fn first_of(state: ChecksumState, told: Option<Refusal>) -> Option<Refusal>
    ensures { result ≡ first_of state told }
{
    match state {
        ChecksumState::Bad => Some(Refusal::Checksum),
        _ => told,
    }
}

// Prints why a message is refused.
pub(crate) fn show_refused<W: Write>(
    output: &mut W,
    form: Form,
    alloc: Global,
    refusal: &Refusal,
) -> io::Result<()>
    ensures { OnOk result (Prints form (W.contents output.old) (W.contents output.new)
        (refused_items refusal.now)) }
{
    show_phrase(output, form, alloc, "refused", refusal)
}

// Prints the phrase of a refusal.
pub(crate) fn show_phrase<W: Write>(
    output: &mut W,
    form: Form,
    alloc: Global,
    key: &str,
    refusal: &Refusal,
) -> io::Result<()>
    ensures { OnOk result (Prints form (W.contents output.old) (W.contents output.new)
        (field_item key.now (text (refusal_display refusal.now)) ∷ [])) }
{
    let phrase = refusal.to_string(alloc)?;
    field(output, form, key, phrase.as_str())
}
