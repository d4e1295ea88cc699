//! The variables that a let binds, in scope and out of it (SMT-LIB 2.6, on binders).
ghost use Rattle.std.specs.Prelude.{◌≡◌, ◌≤◌, ◌<◌, ◌^◌, ◌∷◌, ◌++◌, List, if◌then◌else◌, length, drop, Some, OnOk};
ghost use Rattle.sym_table.specs.Table.{Table, IsLeaf};
ghost use Rattle.term_model.specs.Terms.{Var, variable};
ghost use Rattle.term_pool.specs.StandsFor.{variable_leaf};
ghost use Rattle.term_pool.specs.Views.{TermsView, KeepsTerms};
ghost use Rattle.problem_text.specs.Limits.{most_height};
ghost use Rattle.term_names.specs.InScope.{IsScope, AreValuesLow, AreValuesBound};
ghost use Rattle.term_names.specs.Making.{Makes};
ghost use Rattle.problem_text.specs.Names.{Bound, Place, itself, place_inside, let_term};
ghost use Rattle.term_names.specs.Scope.{Scoped};
ghost use Rattle.problem_text.specs.TypedTerms.{Typed};
ghost use Rattle.term_expansion.specs.Values.{IsValue};
ghost use Rattle.term_expansion.specs.SymbolsAndTerms.{both};

use crate::faults::ReadFault;
use crate::names::Names;
use crate::stacks::Values;
use pair_pool::Ref;
use sym_table::{Memory, Symbols};
use term_expansion::values::{Bound as Binding, Value};
use term_model::Sort;
use term_pool::{Terms, trees_are_built_of_parts};

/// The variables of a let, by their leaves, and their values, which stand from place `from` on.
#[derive(Clone, Copy)]
pub struct LetVariables<'n> {
    pub leaves: &'n [u32],
    pub values: &'n Values,
    pub from: usize,
}

/// Puts the variables of a let in scope, the first one innermost. Where lets are replaced each stands for its value, and
/// otherwise for itself. Refuses only when out of memory.
pub fn bind(
    symbols: &Symbols,
    names: &mut Names,
    variables: &LetVariables<'_>,
    replaces_lets: bool,
) -> Result<(), Memory>
    requires within { variables.now.from ≤ length variables.now.values.now }
    requires bound { (v : TermsView) × (bs : List Bound) × AreValuesBound (both symbols.now v) variables.now.leaves.now
        (drop variables.now.from variables.now.values.now) bs }
    ensures bound { (v : TermsView) (bs : List Bound) (p : Place) →
        AreValuesBound (both symbols.now v) variables.now.leaves.now (drop variables.now.from variables.now.values.now) bs →
        IsScope (both symbols.now v) names.old.scope p.scope → p.settings.replaces_lets ≡ replaces_lets →
        OnOk result (IsScope (both symbols.now v) names.new.scope (place_inside bs p).scope) }
    ensures inner { OnOk result ((inner : List Scoped) × (names.new.scope ≡ inner ++ names.old.scope) × (length inner ≡ length variables.now.leaves.now)) }
    ensures own { names.new.own ≡ names.old.own }
{
    let LetVariables {
        leaves,
        values,
        from,
    } = *variables;
    let _values = values.len();
    let mut at = leaves.len();
    'variables: while at > 0 {
        at -= 1;
        bind_one(
            symbols,
            names,
            leaves[at],
            values.get(from + at),
            replaces_lets,
        )?;
    }
    Ok(())
}

/// Puts a variable in scope, by its leaf. Where lets are replaced it stands for the value, and otherwise for itself.
/// Refuses only when out of memory.
fn bind_one(
    symbols: &Symbols,
    names: &mut Names,
    leaf: u32,
    value: Value,
    replaces_lets: bool,
) -> Result<(), Memory>
    requires variable { (x : Var) × IsLeaf symbols.now leaf (variable_leaf x) }
    ensures bound { (v : TermsView) (b : Bound) (bs : List Bound) → IsLeaf symbols.now leaf (variable_leaf b.variable) →
        IsValue (both symbols.now v) value (record { tree = b.stands_for; sort = b.variable.sort }) → IsScope (both symbols.now v) names.old.scope bs →
        OnOk result (IsScope (both symbols.now v) names.new.scope ((if replaces_lets then b else itself b.variable) ∷ bs)) }
    ensures inner { OnOk result ((e : Scoped) × (names.new.scope ≡ e ∷ names.old.scope)) }
    ensures own { names.new.own ≡ names.old.own }
{
    symbols.leaves_differ();
    let value = if replaces_lets {
        value
    } else {
        as_itself(leaf, value.sort)
    };
    let bound = Binding {
        variable: leaf,
        value,
    };
    names.push(symbols.name(leaf), bound)
}

/// A variable of this sort as a term, by its leaf.
pub fn as_itself(leaf: u32, sort: Sort) -> Value
    requires { leaf < 2 ^ 30 }
    ensures { (s : Table) (v : TermsView) (x : Var) → IsLeaf s leaf (variable_leaf x) → sort ≡ x.sort →
        IsValue (both s v) result (record { tree = variable x; sort = x.sort }) }
{
    Value {
        term: Ref::leaf(leaf),
        sort,
        height: 1,
        plain: true,
    }
}

/// Takes the innermost variables out of scope, this many.
pub fn unbind(names: &mut Names, count: usize)
    requires { count ≤ length names.old.scope }
    ensures scope { names.new.scope ≡ drop count names.old.scope }
    ensures own { names.new.own ≡ names.old.own }
{
    let mut left = count;
    'variables: while left > 0 {
        names.pop();
        left -= 1;
    }
}

/// The let with this body that binds these variables, of which there is one or more; where lets are replaced it is the body.
pub fn close(
    symbols: &Symbols,
    terms: &mut Terms<'_>,
    variables: &LetVariables<'_>,
    body: Value,
    replaces_lets: bool,
) -> Result<Option<Value>, ReadFault>
    requires some { 0 < length variables.now.leaves.now }
    requires within { variables.now.from ≤ length variables.now.values.now }
    requires low { AreValuesLow variables.now.values.now }
    requires body_low { body.height ≤ most_height }
    requires bound { (bs : List Bound) × (t : Typed) × AreValuesBound (both symbols.now terms.old) variables.now.leaves.now
        (drop variables.now.from variables.now.values.now) bs × IsValue (both symbols.now terms.old) body t }
    ensures makes { (p : Place) (bs : List Bound) (t : Typed) →
        AreValuesBound (both symbols.now terms.old) variables.now.leaves.now (drop variables.now.from variables.now.values.now) bs →
        IsValue (both symbols.now terms.old) body t → p.settings.replaces_lets ≡ replaces_lets →
        Makes terms.old (both symbols.now terms.new) (Some (let_term p bs t)) result }
    ensures keeps { KeepsTerms terms.old terms.new }
{
    if replaces_lets {
        return Ok(Some(body));
    }
    let LetVariables {
        leaves,
        values,
        from,
    } = *variables;
    symbols.leaves_differ();
    trees_are_built_of_parts();
    let height = 1 + values.highest_from(from).max(body.height);
    let term = terms.let_term(leaves, values.terms_from(from), body.term)?;
    Ok(Some(Value {
        term,
        sort: body.sort,
        height,
        plain: false,
    }))
}
