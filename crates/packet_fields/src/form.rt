//! The forms in which fields are printed.

#![tactic(auto, using(crate::proofs::JsonTexts::reads_as_json))]

ghost use Rattle.packet_fields.specs.Json.{ReadsAsJson};

/// The form in which fields are printed.
#[derive(Debug, PartialEq, Eq, Clone, Copy)]
pub enum Form {
    /// A line for each, as `  name=value`.
    Lines,
    /// A member of a JSON object for each (RFC 8259), as `,"name":value`.
    Json,
}

/// In JSON, an object's first member and the fields after it are a text of JSON, which reads as that object. For proofs
/// alone.
pub fn reads_as_json()
    ensures { ReadsAsJson }
{}
