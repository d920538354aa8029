//! The packets that `--only` chooses by their names.

ghost use Rattle.std.specs.Prelude.{◌≡◌, IfErr, IfOk};
ghost use Rattle.dump_captures.specs.Arguments.{kind_named, only_of, with_name};

use crate::kind::Kind;
use crate::options::Only;

/// The packets that a list of names chooses, separated by commas; or else the first item that is no name.
pub fn read_only(list: &str) -> Result<Only, &str>
    ensures only { IfOk result (λ only. only_of list.now ≡ Ok only) }
    ensures wrong { IfErr result (λ name. only_of list.now ≡ Err name.now) }
{
    let mut only = Only::NONE;
    for name in list.split(',') {
        let Some(more) = with_name(only, name) else {
            return Err(name);
        };
        only = more;
    }
    Ok(only)
}

// These packets and those of a name: of a kind, or those with hop-by-hop options.
fn with_name(only: Only, name: &str) -> Option<Only>
    ensures { result ≡ with_name name.now only }
{
    let mut kinds = only.kinds;
    if name == "hbh" {
        return Some(Only {
            kinds,
            hop_by_hop: true,
        });
    }
    if name == "icmp" {
        kinds[Kind::Icmp4.place()] = true;
        kinds[Kind::Icmp6.place()] = true;
        return Some(Only {
            kinds,
            hop_by_hop: only.hop_by_hop,
        });
    }
    let kind = kind_of(name)?;
    kinds[kind.place()] = true;
    Some(Only {
        kinds,
        hop_by_hop: only.hop_by_hop,
    })
}

// The kind of a name.
fn kind_of(name: &str) -> Option<Kind>
    ensures { result ≡ kind_named name.now }
{
    for kind in &Kind::ALL {
        if name == kind.name() {
            return Some(*kind);
        }
    }
    None
}
