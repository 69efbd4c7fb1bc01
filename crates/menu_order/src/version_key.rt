//! A version that is kept to be compared.
ghost use Rattle.std.specs.Prelude.{◌≡◌, IfOk};
ghost use Rattle.menu_order.specs.VersionTokens.{tokens_of};

use crate::version::compare_versions;
use std::alloc::{AllocError, Global};
use std::cmp::Ordering;
use std::marker::Model;

/// A version of its own, which is ordered as the UAPI Version Format orders its text. Contracts
/// see the list of its tokens.
#[derive(Debug, Drop)]
pub struct VersionKey {
    text: Vec<u8>,
}

impl Model for VersionKey {
    ghost use Rattle.std.specs.Prelude.{List};
    ghost use Rattle.menu_order.specs.VersionTokens.{Token, tokens_of};

    ghost Value = { List Token };

    ghost view = { λ key. tokens_of key.text.items };
}

impl VersionKey {
    /// The key of a version, which keeps a copy of the text. Want of memory is its one fault.
    pub fn of(alloc: Global, text: &[u8]) -> Result<VersionKey, AllocError>
        ensures { IfOk result (λ key. key ≡ tokens_of text.now) }
    {
        let text = text.to_vec(alloc)?;
        Ok(VersionKey { text })
    }
}

impl Ord for VersionKey {
    ghost use Rattle.menu_order.specs.VersionOrder.{tokens_cmp};
    ghost use Rattle.menu_order.specs.proofs.Orders.{tokens_cmp_total};
    ghost use Rattle.std.specs.Prelude.{refl};

    ghost cmp = { tokens_cmp };

    ghost total = { tokens_cmp_total };

    ghost matches_partial_cmp = { λ _ _. refl };

    ghost matches_eq = { λ _ _. refl };

    fn cmp(&self, other: &VersionKey) -> Ordering {
        compare_versions(self.text.as_slice(), other.text.as_slice())
    }
}

impl PartialOrd for VersionKey {
    ghost use Rattle.menu_order.specs.VersionOrder.{tokens_cmp};
    ghost use Rattle.menu_order.specs.proofs.Orders.{tokens_cmp_total};
    ghost use Rattle.std.specs.Ordering.{as_partial_cmp};
    ghost use Rattle.std.specs.Cmp.{partial_order_from_total};

    ghost partial_cmp = { as_partial_cmp tokens_cmp };

    ghost laws = { partial_order_from_total tokens_cmp_total };

    fn partial_cmp(&self, other: &VersionKey) -> Option<Ordering> {
        Some(self.cmp(other))
    }
}

impl PartialEq for VersionKey {
    ghost use Rattle.menu_order.specs.VersionOrder.{tokens_cmp};
    ghost use Rattle.menu_order.specs.proofs.Orders.{tokens_cmp_total};
    ghost use Rattle.std.specs.Ordering.{eq_by_cmp};
    ghost use Rattle.std.specs.Cmp.{partial_equiv_from_equiv};
    ghost use Rattle.std.proofs.lemmas.Cmp.{eq_by_cmp_equiv};

    ghost eq = { eq_by_cmp tokens_cmp };

    ghost laws = { partial_equiv_from_equiv (eq_by_cmp_equiv tokens_cmp_total) };

    fn eq(&self, other: &VersionKey) -> bool {
        self.cmp(other) == Ordering::Equal
    }
}

impl Eq for VersionKey {
    ghost use Rattle.menu_order.specs.proofs.Orders.{tokens_cmp_total};
    ghost use Rattle.std.proofs.lemmas.Cmp.{eq_by_cmp_equiv};

    ghost laws = { eq_by_cmp_equiv tokens_cmp_total };
}
