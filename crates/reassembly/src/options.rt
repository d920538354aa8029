//! Hop-by-hop options that are kept.

ghost use Rattle.std.specs.Prelude.{◌≡◌, IfOk};
ghost use Rattle.std.specs.Option.{option_map};
ghost use Rattle.reassembly.specs.Fragment.{value_of};
ghost use Rattle.reassembly.specs.Piece.{kept_options};

use crate::answer::Fault;
use crate::fragment::Fragment;
use std::alloc::Global;

// What is kept of the options in front of a fragment: those of the one at offset 0.
pub(crate) fn kept_options(alloc: Global, fragment: &Fragment<'_>) -> Result<Option<Vec<u8>>, Fault>
    ensures { IfOk result (λ kept.
        option_map (λ options. options.items) kept ≡ kept_options (value_of fragment.now)) }
{
    if fragment.frag_offset != 0 {
        return Ok(None);
    }
    copied(alloc, fragment.hop_by_hop)
}

// Options of their own memory, where there are any.
pub(crate) fn copied(alloc: Global, options: Option<&[u8]>) -> Result<Option<Vec<u8>>, Fault>
    ensures { IfOk result (λ kept.
        option_map (λ options. options.items) kept ≡ option_map (λ options. options.now) options.entry) }
{
    let Some(options) = options else {
        return Ok(None);
    };
    let mut kept = Vec::new(alloc);
    if kept.extend_from_slice(options).is_err() {
        return Err(Fault::Memory);
    }
    Ok(Some(kept))
}
