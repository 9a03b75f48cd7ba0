//! Laws of severities and label styles. Each is the contract of a function that does nothing and
//! does not fail.
//!
//! Users name them as `codespan_base::laws`, which has the laws of files too.

ghost use Rattle.std.specs.Prelude.{◌≡◌, ◌↔◌, Some, IsTrue};
ghost use Rattle.std.specs.Ordering.{nat_cmp};
ghost use Rattle.codespan_core.specs.Diagnostics.{severity_rank, style_rank};
ghost use Rattle.codespan_core.specs.declared.diagnostic.Severity.{Severity};
ghost use Rattle.codespan_core.specs.declared.diagnostic.LabelStyle.{LabelStyle};

use crate::diagnostic::{LabelStyle, Severity};
use std::hash::Hash;

/// States that severities are ordered `Help` < `Note` < `Warning` < `Error` < `Bug`, that `Ord` and
/// `PartialOrd` agree, that two are `==` exactly where they are the same, and that equal ones give
/// a hasher the same input.
pub fn severities_agree()
    ensures order { (x y : Severity) →
        ⟦<Severity as Ord>⟧.cmp x y ≡ nat_cmp (severity_rank x) (severity_rank y) }
    ensures partial { (x y : Severity) →
        ⟦<Severity as PartialOrd>⟧.partial_cmp x y ≡ Some (⟦<Severity as Ord>⟧.cmp x y) }
    ensures equal { (x y : Severity)
        → IsTrue (⟦<Severity as PartialEq>⟧.eq x y) ↔ (x ≡ y) }
    ensures hash { (x y : Severity) → IsTrue (⟦<Severity as PartialEq>⟧.eq x y) →
        ⟦<Severity as Hash>⟧.hash_input x ≡ ⟦<Severity as Hash>⟧.hash_input y }
{}

/// States that label styles are ordered `Primary` < `Secondary`, and that two are `==` exactly
/// where they are the same.
pub fn label_styles_agree()
    ensures order { (x y : LabelStyle) →
        ⟦<LabelStyle as PartialOrd>⟧.partial_cmp x y
        ≡ Some (nat_cmp (style_rank x) (style_rank y)) }
    ensures equal { (x y : LabelStyle)
        → IsTrue (⟦<LabelStyle as PartialEq>⟧.eq x y) ↔ (x ≡ y) }
{}
