//! Symbols applied to terms that were read.
ghost use Rattle.std.specs.Prelude.{◌≡◌, ◌≤◌, ◌<◌, List, length, drop, IfOk};
ghost use Rattle.term_model.specs.Sorts.{sorts_eq};
ghost use Rattle.term_pool.specs.Views.{TermsView, KeepsTerms};
ghost use Rattle.term_names.specs.Applying.{bounds_of};
ghost use Rattle.term_names.specs.Heads.{HeadMeans, IsSymbolOf};
ghost use Rattle.term_names.specs.InScope.{AreValuesLow};
ghost use Rattle.term_names.specs.Making.{Makes};
ghost use Rattle.term_names.specs.Scope.{known_in};
ghost use Rattle.problem_text.specs.Names.{Meaning, macro, meaning_applied, refusal_of, sorts_of};
ghost use Rattle.problem_text.specs.Scripts as spec;
ghost use Rattle.problem_text.specs.TypedTerms.{Typed};
ghost use Rattle.term_names.specs.Standing.{IsMacroOf};
ghost use Rattle.term_expansion.specs.Values.{AreValues};
ghost use Rattle.term_expansion.specs.SymbolsAndTerms.{both};

use crate::divisors::divides_rightly;
use crate::entries::Macro;
use crate::faults::ReadFault;
use crate::heads::Head;
use crate::names::NameTables;
use crate::stacks::Values;
use sexpr::Cause;
use sort_check::check_app;
use std::alloc::Global;
use sym_table::{Kind, Memory, Symbols};
use term_expansion::substitution::put_in_plain;
use term_expansion::values::{Bound, Value};
use term_model::Sort;
use term_pool::{Terms, trees_are_built_of_parts};

/// What is applied to the terms from place `from` on, of which there is one or more: the term that this is, or None
/// where their number or their sorts do not allow it, or `div` or `mod` would divide by anything but a constant other
/// than zero (`why_not_applied` tells which).
///
/// A macro costs the distinct cells of its body; anything else one cell for each argument and one more.
pub fn apply(
    tables: &NameTables<'_, '_>,
    terms: &mut Terms<'_>,
    head: Head,
    values: &Values,
    from: usize,
) -> Result<Option<Value>, ReadFault>
    requires some { from < length values.now }
    requires low { AreValuesLow values.now }
    requires head { (m : Meaning) × (ts : List Typed) ×
        HeadMeans (both tables.now.symbols.now terms.old) (known_in tables.now.settings.now tables.now.names.now) head m ×
        AreValues (both tables.now.symbols.now terms.old) (drop from values.now) ts }
    ensures makes { (m : Meaning) (ts : List Typed) →
        HeadMeans (both tables.now.symbols.now terms.old) (known_in tables.now.settings.now tables.now.names.now) head m →
        AreValues (both tables.now.symbols.now terms.old) (drop from values.now) ts →
        Makes terms.old (both tables.now.symbols.now terms.new) (meaning_applied m ts) result }
    ensures keeps { KeepsTerms terms.old terms.new }
{
    let NameTables {
        settings,
        symbols,
        names,
    } = *tables;
    match head {
        Head::Symbol(leaf) => apply_symbol(symbols, terms, leaf, values, from),
        Head::Macro(which) => {
            let defined = names.macro_at(settings, which);
            apply_macro(settings.alloc, symbols, terms, defined, values, from)
        }
        Head::Fixed => Ok(None),
    }
}

/// The cause why what is applied to the terms from place `from` on is none, where it is none: their number or their sorts, or
/// what `div` or `mod` would divide by.
pub fn why_not_applied(
    tables: &NameTables<'_, '_>,
    head: Head,
    values: &Values,
    from: usize,
) -> Cause
    requires some { from < length values.now }
    requires head { (v : TermsView) × (m : Meaning) × (ts : List Typed) ×
        HeadMeans (both tables.now.symbols.now v) (known_in tables.now.settings.now tables.now.names.now) head m ×
        AreValues (both tables.now.symbols.now v) (drop from values.now) ts }
    ensures { (v : TermsView) (m : Meaning) (ts : List Typed) →
        HeadMeans (both tables.now.symbols.now v) (known_in tables.now.settings.now tables.now.names.now) head m →
        AreValues (both tables.now.symbols.now v) (drop from values.now) ts → result ≡ refusal_of m ts }
{
    match head {
        Head::Symbol(leaf) => why_not_symbol(tables.symbols, leaf, values.sorts_from(from)),
        Head::Macro(_) | Head::Fixed => Cause::SortMismatch,
    }
}

/// The same of an operator or a declared function, told by its leaf, and arguments of these sorts.
fn why_not_symbol(symbols: &Symbols, leaf: u32, sorts: &[Sort]) -> Cause
    requires { (m : Meaning) × IsSymbolOf symbols.now leaf m }
    ensures { (m : Meaning) (ts : List Typed) → IsSymbolOf symbols.now leaf m → sorts_of ts ≡ sorts.now → result ≡ refusal_of m ts }
{
    symbols.leaves_differ();
    match symbols.kind(leaf) {
        Kind::Op(_) => match check_app(symbols, leaf, sorts) {
            Some(_) => Cause::LeftOut,
            None => Cause::SortMismatch,
        },
        _ => Cause::SortMismatch,
    }
}

/// The application of an operator or a declared function, by its leaf.
fn apply_symbol(
    symbols: &Symbols,
    terms: &mut Terms<'_>,
    leaf: u32,
    values: &Values,
    from: usize,
) -> Result<Option<Value>, ReadFault>
    requires some { from < length values.now }
    requires low { AreValuesLow values.now }
    requires symbol { (m : Meaning) × (ts : List Typed) × IsSymbolOf symbols.now leaf m × AreValues (both symbols.now terms.old) (drop from values.now) ts }
    ensures makes { (m : Meaning) (ts : List Typed) → IsSymbolOf symbols.now leaf m → AreValues (both symbols.now terms.old) (drop from values.now) ts →
        Makes terms.old (both symbols.now terms.new) (meaning_applied m ts) result }
    ensures keeps { KeepsTerms terms.old terms.new }
{
    symbols.leaves_differ();
    let Some(sort) = check_app(symbols, leaf, values.sorts_from(from)) else {
        return Ok(None);
    };
    let args = values.terms_from(from);
    if !divides_rightly(symbols, terms, leaf, args) {
        return Ok(None);
    }
    trees_are_built_of_parts();
    let height = 1 + values.highest_from(from);
    let plain = values.all_plain_from(from);
    let term = terms.app(leaf, args)?;
    Ok(Some(Value {
        term,
        sort,
        height,
        plain,
    }))
}

/// The body of a macro with the terms put in for its parameters.
fn apply_macro(
    alloc: Global,
    symbols: &Symbols,
    terms: &mut Terms<'_>,
    defined: &Macro,
    values: &Values,
    from: usize,
) -> Result<Option<Value>, ReadFault>
    requires some { from < length values.now }
    requires defined { (d : spec.Macro) × (ts : List Typed) × IsMacroOf (both symbols.now terms.old) defined.now d ×
        AreValues (both symbols.now terms.old) (drop from values.now) ts }
    ensures makes { (d : spec.Macro) (ts : List Typed) → IsMacroOf (both symbols.now terms.old) defined.now d →
        AreValues (both symbols.now terms.old) (drop from values.now) ts →
        Makes terms.old (both symbols.now terms.new) (meaning_applied (macro d) ts) result }
    ensures keeps { KeepsTerms terms.old terms.new }
{
    if !are_equal(&defined.sorts, values.sorts_from(from)) {
        return Ok(None);
    }
    let arguments = arguments_for(alloc, &defined.parameters, values, from)?;
    let term = put_in_plain(alloc, symbols, terms, &arguments, defined.body)?;
    Ok(Some(term))
}

/// Whether these are the same sorts in the same order.
fn are_equal(sorts: &[Sort], others: &[Sort]) -> bool
    ensures { result ≡ sorts_eq sorts.now others.now }
{
    sorts == others
}

/// What is put in for each parameter, told by its leaf: the value at its place, from place `from` on.
fn arguments_for(
    alloc: Global,
    parameters: &[u32],
    values: &Values,
    from: usize,
) -> Result<Vec<Bound>, Memory>
    requires within { from ≤ length values.now }
    requires one_each { length parameters.now ≡ length (drop from values.now) }
    ensures { IfOk result (λ bounds. bounds.items ≡ bounds_of parameters.now (drop from values.now)) }
{
    let _values = values.len();
    let mut bounds = Vec::with_capacity(alloc, parameters.len())?;
    'parameters: for (i, parameter) in parameters.iter().enumerate() {
        let bound = Bound {
            variable: *parameter,
            value: values.get(from + i),
        };
        bounds.push(bound)?;
    }
    Ok(bounds)
}
