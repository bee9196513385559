//! Whether two lists of truncates are one.
ghost use Rattle.std.specs.Prelude.{◌≡◌, option_map};
ghost use Rattle.refresh_index.specs.Refreshing.{past_same as past_same_of, same_truncs};

use plfs_types::Trunc;

/// The truncates behind the first, where that is this one.
fn past_same<'a>(trunc: &Trunc, truncs: &'a [Trunc]) -> Option<&'a [Trunc]>
    ensures { option_map (λ rest. rest.now) result ≡ past_same_of trunc.now truncs.now }
{
    match truncs {
        [first, rest @ ..] if first.stamp == trunc.stamp && first.size == trunc.size => Some(rest),
        _ => None,
    }
}

/// Whether the truncates are the same.
#[tactic(auto, using(crate::proofs::TruncLemmas::other_first, crate::proofs::TruncLemmas::same_first))]
pub(crate) fn are_same(some: &[Trunc], others: &[Trunc]) -> bool
    ensures { result ≡ same_truncs some.now others.now }
{
    let mut rest = others;
    for trunc in some {
        let Some(more) = past_same(trunc, rest) else {
            return false;
        };
        rest = more;
    }
    rest.is_empty()
}
