// Whether two types are one.
#![tactic(auto, using(crate::proofs::SameLemmas::same_rules))]

ghost use Rattle.std.specs.Prelude.{◌≡◌, ◌↔◌, IsTrue};
ghost use Rattle.flume_types.specs.declared.types.Ty.{Ty as Ty_};
ghost use Rattle.flume_types.specs.Equality.{type_eq};

use crate::types::Ty;

/// Whether they are one type: record types have the same names and types in the same order.
pub fn same_type(a: &Ty, b: &Ty) -> bool
    ensures value { result ≡ type_eq a.now b.now }
    ensures same { IsTrue result ↔ (a.now ≡ b.now) }
{
    a == b
}

/// The derived `==` of types tells whether they are one.
pub fn same_law()
    ensures exact { (a b : Ty_) → IsTrue (type_eq a b) ↔ (a ≡ b) }
{}
