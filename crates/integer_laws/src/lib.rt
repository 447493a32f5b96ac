//! The algebra of the whole numbers that the polygon crates stand on. It has lemmas and no code, and its one promise is that each
//! of them is proved: `laws_hold` names the four that the others lead up to.
//!
//! A crate above takes a lemma by `use Rattle.integer_laws.proofs.FILE.{NAME}` in its `proofs/`. The files, lowest first:
//!
//! - `Ring`: `by_ring` proves an equation of polynomials by computing both sides, `by_one`, `by_two` and `by_three` one that follows
//!   from equations, by a certificate (`by_equations` from any number). Expressions are built of `Var`, `Lit`, `⊕`, `⊖`, `⊗` and `Neg`. The ruleset `lin` gives `omega`
//!   sums, differences and comparisons, and leaves each product an unknown. Laws of products: `mul_add`, `add_mul`, `mul_sub`, `sub_mul`,
//!   `mul_assoc`, `mul_comm`, `mul_left_comm`, `mul_zero`, `mul_one`, `neg_mul`, `mul_neg`, `neg_mul_neg`, `pos_times`.
//! - `Compare`: the laws of `≤ℤ` and `<ℤ` (`le_trans`, `le_antisymm`, ..), cases (`trichotomy`, `lt_or_ge`, `le_or_gt`, `eq_or_not`,
//!   `sign_cases`), and what `int_lt`, `int_le` and `int_eq` answer (`int_lt_is`, `int_lt_false`, `not_int_lt_is`, .., the ruleset `int_tests`).
//! - `Cast`: the naturals among the whole numbers (`natural`, `pos_le`, `pos_positive`, `pos_injective`), and `FitsSigned` as two
//!   inequalities (`fits_is`, `fits_i32_is`, .., the ruleset `int_casts`).
//! - `Sign`: the sign of a product (`positive_times_negative`, ..), of a factor (`positive_factor`, ..; where the other one is below 0,
//!   `positive_cofactor`, ..), squares (`square_nonneg`, `squares_zero`), products that are 0 (`product_zero`), `same_signs`, `opposite_signs`.
//! - `Order`: an inequality times a factor (`mul_le`, `le_mul`, `mul_lt`, `lt_mul`, `mul_le_mul`, ..), a factor cancelled (`cancel_eq`,
//!   `cancel_le`, `cancel_lt`, ..), inequalities by certificate (`by_le_one`, `by_lt_two`, `by_le_eq`, ..), fractions compared by
//!   cross-multiplying (`fraction_le_trans`, `fraction_lt_le_trans`, ..).
//! - `Bound`: `IsWithin m x` is -m ≤ x ≤ m; of a product `within_product`, of a whole expression `by_bound`; to a width `within_fits`.
#![tactic(auto)]

ghost use Rattle.integer_laws.specs.Laws.{EquationLaw, BoundLaw, ZeroLaw, FractionLaw};

/// The laws that the lemmas of this crate lead up to. A call does nothing.
pub fn laws_hold()
    ensures equations { EquationLaw }
    ensures bounds { BoundLaw }
    ensures zeros { ZeroLaw }
    ensures fractions { FractionLaw }
{}
