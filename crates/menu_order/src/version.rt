//! The order of version texts, as the UAPI Version Format gives it: a text is read as a list of
//! tokens, and lists are compared token by token with their end as a token of its own.
ghost use Rattle.std.specs.Prelude.{◌≡◌, ◌↔◌};
ghost use Rattle.std.specs.Cmp.{IsTotalOrder};
ghost use Rattle.menu_order.specs.VersionTokens.{tokens_of};
ghost use Rattle.menu_order.specs.VersionOrder.{version_cmp};
ghost use Rattle.menu_order.specs.VersionLaws.{EqualTokens, FirstDifference};

use crate::lexeme::{Lexeme, first_lexeme};
use std::cmp::Ordering;

/// How two versions compare in the order of the UAPI Version Format: token by token, with the end
/// of a text as a token of its own. Bytes of no token only separate. It takes no memory, and time
/// in proportion to the two lengths.
pub fn compare_versions(a: &[u8], b: &[u8]) -> Ordering
    ensures order { result ≡ version_cmp a.now b.now }
{
    let (mut left, mut right) = (a, b);
    loop {
        let (first, left_rest) = first_lexeme(left);
        let (second, right_rest) = first_lexeme(right);
        let order = first.compare(second);
        if order != Ordering::Equal || first.is_end() {
            return order;
        }
        left = left_rest;
        right = right_rest;
    }
}

/// The laws of the order, which hold of all texts: it is total and transitive, two versions are
/// equal in it exactly where no token differs, and else the first place where their tokens differ
/// decides.
pub fn version_laws()
    ensures total { IsTotalOrder version_cmp }
    ensures equal { EqualTokens }
    ensures first_difference { FirstDifference }
{}
