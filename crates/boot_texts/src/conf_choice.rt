//! Which entry a loader.conf chooses.
ghost use Rattle.std.specs.Prelude.{◌≡◌, MatchOption, length, position};
ghost use Rattle.boot_texts.specs.ConfChoice.{IsDefaultEntry, default_place, first_place, match_place};
ghost use Rattle.boot_texts.specs.PatternDecisions.{pattern_matches};

use crate::conf::LoaderConf;
use crate::pattern::matches;
use boot_base::Bytes;

/// The place of the entry that boots by default, of those with these ids: the first whose id the default
/// matches, else the first of all. It takes no memory.
#[tactic(auto, unfolding(crate::specs::ConfChoice::default_place))]
pub fn default_place(ids: &[Bytes], conf: &LoaderConf) -> Option<usize>
    ensures place { result ≡ default_place conf.now.default ids.now }
    ensures entry { MatchOption result (length ids.now ≡ 0) (λ place. IsDefaultEntry conf.now.default ids.now place) }
{
    match_place(ids, &conf.default).or(first_place(ids))
}

// The first place of an id that the default matches.
fn match_place(ids: &[Bytes], default: &Option<Bytes>) -> Option<usize>
    ensures { result ≡ match_place default.now ids.now }
{
    match default {
        Some(pattern) => first_match(ids, pattern.as_slice()),
        None => None,
    }
}

// The first place of an id that the pattern matches.
fn first_match(ids: &[Bytes], pattern: &[u8]) -> Option<usize>
    ensures { result ≡ position (pattern_matches pattern.now) ids.now }
{
    ids.iter().position(|id| is_match(pattern, id.as_slice()))
}

fn is_match(pattern: &[u8], id: &[u8]) -> bool
    ensures { result ≡ pattern_matches pattern.now id.now }
{
    matches(pattern, id)
}

// The first place of all.
fn first_place(ids: &[Bytes]) -> Option<usize>
    ensures { result ≡ first_place ids.now }
{
    if ids.is_empty() { None } else { Some(0) }
}
