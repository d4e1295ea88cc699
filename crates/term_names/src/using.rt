//! Symbols that stand alone.
ghost use Rattle.std.specs.Prelude.{◌≡◌, List, true, [], Some, Ok, IfOk};
ghost use Rattle.std.specs.List.{list_all};
ghost use Rattle.sym_table.specs.Table.{Table, IsLeaf};
ghost use Rattle.term_model.specs.Terms.{Var};
ghost use Rattle.term_pool.specs.StandsFor.{variable_leaf};
ghost use Rattle.term_pool.specs.Views.{TermsView, KeepsTerms};
ghost use Rattle.term_names.specs.BoundLeaves.{IsBoundLeaf, AreBoundLeaves, PutsInBound};
ghost use Rattle.term_names.specs.Heads.{IsSymbolOf, IsMacroMeant};
ghost use Rattle.term_expansion.specs.Free.{AreFreeLeaves};
ghost use Rattle.term_names.specs.InScope.{IsScope};
ghost use Rattle.term_names.specs.Scope.{known_in};
ghost use Rattle.term_names.specs.LookingUp.{IsFoundMeaning, IsNamedMeant};
ghost use Rattle.term_names.specs.Making.{Makes, IsMade};
ghost use Rattle.problem_text.specs.Names.{Place, Meaning, meaning_applied, is_bound, replacement};
ghost use Rattle.rule_model.specs.Replacement.{replaced_by};
ghost use Rattle.term_expansion.specs.Values.{PutsIn};
ghost use Rattle.term_expansion.specs.SymbolsAndTerms.{both};

use crate::entries::{Macro, Named};
use crate::faults::ReadFault;
use crate::looking_up::Found;
use crate::names::{NameTables, Names};
use pair_pool::Ref;
use sort_check::check_app;
use std::alloc::Global;
use sym_table::{Memory, Symbols};
use term_expansion::putting_in::put_in;
use term_expansion::values::{Bound, Value};
use term_pool::Terms;

/// The term that a symbol is where it stands alone, or None where it takes arguments. `found` is what it means where
/// these variables are in scope.
///
/// Costs nothing but for a named term where lets are replaced, whose distinct cells are gone through where it has a let or
/// a free variable.
pub fn use_alone(
    tables: &NameTables<'_, '_>,
    terms: &mut Terms<'_>,
    found: Found,
) -> Result<Option<Value>, ReadFault>
    requires found { (p : Place) × (m : Meaning) × IsScope (both tables.now.symbols.now terms.old) tables.now.names.now.scope p.scope ×
        (p.settings.replaces_lets ≡ tables.now.settings.now.replaces_lets) ×
        IsFoundMeaning (both tables.now.symbols.now terms.old) (known_in tables.now.settings.now tables.now.names.now) p found (Some m) }
    ensures makes { (p : Place) (m : Meaning) → IsScope (both tables.now.symbols.now terms.old) tables.now.names.now.scope p.scope →
        p.settings.replaces_lets ≡ tables.now.settings.now.replaces_lets →
        IsFoundMeaning (both tables.now.symbols.now terms.old) (known_in tables.now.settings.now tables.now.names.now) p found (Some m) →
        Makes terms.old (both tables.now.symbols.now terms.new) (meaning_applied m []) result }
    ensures keeps { KeepsTerms terms.old terms.new }
{
    let NameTables {
        settings,
        symbols,
        names,
    } = *tables;
    match found {
        Found::Term(value) => Ok(Some(value)),
        Found::Named(which) => {
            let named = names.named_at(settings, which);
            use_named(tables, terms, named)
        }
        Found::Macro(which) => Ok(macro_alone(names.macro_at(settings, which))),
        Found::Symbol(leaf) => Ok(symbol_alone(symbols, leaf)),
        Found::Unknown => Ok(None),
    }
}

/// The body of a macro that has no parameters.
fn macro_alone(defined: &Macro) -> Option<Value>
    ensures { (s : Table) (v : TermsView) (m : Meaning) → IsMacroMeant (both s v) (Some defined.now) m → IsMade (both s v) (meaning_applied m []) (Ok result) }
{
    if defined.parameters.is_empty() {
        Some(defined.body)
    } else {
        None
    }
}

/// The term that an operator or a declared function is by itself, where it takes no arguments.
fn symbol_alone(symbols: &Symbols, leaf: u32) -> Option<Value>
    requires { (m : Meaning) × IsSymbolOf symbols.now leaf m }
    ensures { (v : TermsView) (m : Meaning) → IsSymbolOf symbols.now leaf m → IsMade (both symbols.now v) (meaning_applied m []) (Ok result) }
{
    symbols.leaves_differ();
    let sort = check_app(symbols, leaf, &[])?;
    Some(Value {
        term: Ref::leaf(leaf),
        sort,
        height: 1,
        plain: true,
    })
}

/// What a named term stands for where these variables are in scope. Where lets are replaced, its free variables stand
/// for what they are bound to.
fn use_named(
    tables: &NameTables<'_, '_>,
    terms: &mut Terms<'_>,
    named: &Named,
) -> Result<Option<Value>, ReadFault>
    requires named { (p : Place) × (m : Meaning) × IsScope (both tables.now.symbols.now terms.old) tables.now.names.now.scope p.scope ×
        (p.settings.replaces_lets ≡ tables.now.settings.now.replaces_lets) × IsNamedMeant (both tables.now.symbols.now terms.old) p (Some named.now) m }
    ensures makes { (p : Place) (m : Meaning) → IsScope (both tables.now.symbols.now terms.old) tables.now.names.now.scope p.scope →
        p.settings.replaces_lets ≡ tables.now.settings.now.replaces_lets → IsNamedMeant (both tables.now.symbols.now terms.old) p (Some named.now) m →
        Makes terms.old (both tables.now.symbols.now terms.new) (meaning_applied m []) result }
    ensures keeps { KeepsTerms terms.old terms.new }
{
    let NameTables {
        settings,
        symbols,
        names,
    } = *tables;
    if !settings.replaces_lets {
        return Ok(Some(named.value));
    }
    let alloc = settings.alloc;
    let bounds = bounds_of(alloc, symbols, names, &named.free)?;
    let value = put_in(alloc, symbols, terms, &bounds, named.value)?;
    Ok(Some(value))
}

/// What the variables of these leaves stand for here.
fn bounds_of(
    alloc: Global,
    symbols: &Symbols,
    names: &Names,
    leaves: &[u32],
) -> Result<Vec<Bound>, Memory>
    requires { AreBoundLeaves symbols.now names.now.scope leaves.now }
    ensures { IfOk result (λ bounds. (v : TermsView) (p : Place) (xs : List Var) → IsScope (both symbols.now v) names.now.scope p.scope →
        AreFreeLeaves symbols.now leaves.now xs → list_all (is_bound p.scope) xs ≡ true → PutsInBound (both symbols.now v) bounds.items p.scope xs) }
{
    let mut bounds = Vec::new(alloc);
    'leaves: for leaf in leaves {
        bounds.push(bound_here(symbols, names, *leaf))?;
    }
    Ok(bounds)
}

/// What the variable of this leaf stands for here.
fn bound_here(symbols: &Symbols, names: &Names, leaf: u32) -> Bound
    requires { IsBoundLeaf symbols.now names.now.scope leaf }
    ensures { (v : TermsView) (p : Place) (x : Var) → IsScope (both symbols.now v) names.now.scope p.scope → IsLeaf symbols.now leaf (variable_leaf x) →
        is_bound p.scope x ≡ true → PutsIn (both symbols.now v) result x (replaced_by (replacement p.scope) x) }
{
    names.variable(symbols.name(leaf)).unwrap()
}
