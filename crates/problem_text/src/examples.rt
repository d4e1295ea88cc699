//! Short texts with what they stand for, or with their first fault. The functions do nothing: their contracts are
//! examples of the definitions.
ghost use Rattle.std.specs.Prelude.{◌≡◌, [], ◌∷◌, true, false, codes, None};
ghost use Rattle.sexpr.specs.declared.causes.Cause.TheVariants.{BadCommand, UnknownName, Repeated, SortMismatch, LeftOut, WideNumber};
ghost use Rattle.term_model.specs.declared.symbols.Op.TheVariants as Op;
ghost use Rattle.term_model.specs.declared.symbols.Sort.TheVariants as Sort;
ghost use Rattle.term_model.specs.Terms.{numeral, variable, operation, let_in, no_terms, term, no_bindings, binding, not_of};
ghost use Rattle.problem_text.specs.Examples.{fault, first_fault, assertions_in, script_in};
ghost use Rattle.problem_text.specs.Problems.{HasNamesApart};

/// Commands: their words, their shapes, and what stands after an exit.
pub fn commands_are_judged_in_order()
    ensures quoted_word { first_fault false (codes "(|assert| p)") ≡ fault BadCommand 1 }
    ensures shape_first { first_fault false (codes "(set-logic QF_FOO QF_UF)") ≡ fault BadCommand 18 }
    ensures after_check { first_fault false (codes "(check-sat)(assert)") ≡ fault LeftOut 12 }
    ensures after_exit { first_fault false (codes "(exit) foo (bar) () (assert x)") ≡ None }
    ensures twice { first_fault false (codes "(declare-const x Int)(declare-const |x| Bool)") ≡ fault Repeated 36 }
    ensures parameter { first_fault false (codes "(define-fun d ((x S) (x Int)) Int 1)") ≡ fault UnknownName 18 }
    ensures own_name { first_fault false (codes "(define-fun d ((x Int)) Int (d x))") ≡ fault UnknownName 29 }
{}

/// Terms: numbers, heads, sorts, and the order in which they are judged.
pub fn terms_are_judged_in_order()
    ensures widest { first_fault false (codes "(set-logic QF_LIA) (assert (= 0 170141183460469231731687303715884105727))") ≡ None }
    ensures too_wide { first_fault false (codes "(set-logic QF_LIA) (assert (= 0 170141183460469231731687303715884105728))") ≡ fault WideNumber 32 }
    ensures quantifier { first_fault false (codes "(set-logic QF_LIA) (assert (forall ((x Int)) (< x x)))") ≡ fault LeftOut 28 }
    ensures not_bool { first_fault false (codes "(set-logic QF_LIA) (assert (+ 1 2))") ≡ fault SortMismatch 27 }
    ensures arguments_first { first_fault false (codes "(assert (not true (and)))") ≡ fault BadCommand 18 }
    ensures head_first { first_fault false (codes "(assert (zz ()))") ≡ fault UnknownName 9 }
    ensures shape_of_let { first_fault false (codes "(assert (let ((x zz) (5 zz)) zz))") ≡ fault BadCommand 22 }
    ensures twice_in_let { first_fault false (codes "(assert (let ((x 1) (x true)) x))") ≡ fault Repeated 21 }
    ensures no_name { first_fault false (codes "(assert (! zz :named))") ≡ fault BadCommand 8 }
{}

/// Lets are kept or replaced; in the body of a macro they are replaced.
pub fn lets_are_kept_or_replaced()
    ensures kept { assertions_in false (codes "(assert (let ((x true)) (not x)))")
        ≡ let_in (binding (record { name = codes "x"; sort = Sort.Bool }) (operation Op.True no_terms) no_bindings)
        (not_of (variable (record { name = codes "x"; sort = Sort.Bool }))) ∷ [] }
    ensures replaced { assertions_in true (codes "(assert (let ((x true)) (not x)))") ≡ not_of (operation Op.True no_terms) ∷ [] }
    ensures defined { assertions_in false (codes "(define-fun m ((x Int)) Int (let ((y x)) (+ y y)))(assert (= (m 1) 2))")
        ≡ operation Op.Equal (term (operation Op.Plus (term (numeral 1) (term (numeral 1) no_terms))) (term (numeral 2) no_terms)) ∷ [] }
{}

/// Named terms: where their names may be used, and what they stand for there.
pub fn names_stand_for_terms()
    ensures named { assertions_in false (codes "(assert (! true :named n))(assert (not n))")
        ≡ operation Op.True no_terms ∷ not_of (operation Op.True no_terms) ∷ [] }
    ensures too_soon { first_fault false (codes "(assert (and n (! true :named n)))") ≡ fault UnknownName 13 }
    ensures out_of_scope { first_fault false (codes "(assert (let ((x true)) (! (not x) :named n)))(assert n)") ≡ fault UnknownName 54 }
    ensures in_scope { first_fault false (codes "(assert (let ((x true)) (! (not x) :named n)))(assert (let ((x false)) n))") ≡ None }
    ensures other_sort { first_fault false (codes "(assert (let ((x true)) (! (not x) :named n)))(assert (let ((x 1)) n))") ≡ fault UnknownName 67 }
    ensures after_replacement { assertions_in true (codes "(assert (let ((x true)) (! (not x) :named n)))(assert n)")
        ≡ not_of (operation Op.True no_terms) ∷ not_of (operation Op.True no_terms) ∷ [] }
{}

/// Names are apart where no let binds the name of a declared function.
pub fn names_are_apart_or_not()
    ensures apart { HasNamesApart (script_in (codes "(declare-const x Bool)(assert (let ((y x)) y))")) }
    ensures not_apart { HasNamesApart (script_in (codes "(declare-const x Bool)(assert (let ((x x)) x))")) → ⊥ }
{}
