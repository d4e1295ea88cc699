//! The parts of terms that are in the pool. None of these calls changes what the pass knows.
ghost use Rattle.std.specs.Prelude.{◌≡◌, ◌<◌, length, IfOk, IfSome, IfNone, IsTrue, false};
ghost use Rattle.pair_pool.specs.Views.{IsKnown};
ghost use Rattle.sym_table.specs.Table.{Table, IsTable, IsLeaf};
ghost use Rattle.term_model.specs.Terms.{Var, Term, Bindings, variable, let_in};
ghost use Rattle.term_model.specs.Heights as heights;
ghost use Rattle.term_pool.specs.Building.{AreBindings, IsAppliedLeaf};
ghost use Rattle.term_pool.specs.Reading as read;
ghost use Rattle.term_pool.specs.Reading.{IsLet, IsLetTerm};
ghost use Rattle.term_pool.specs.StandsFor.{variable_leaf};
ghost use Rattle.term_pool.specs.Views.{RefersTo, ReferToAll};

use pair_pool::{Memory, Ref};
use std::alloc::Global;
use sym_table::{Kind, Symbols};
use term_pool::Terms;

/// The leaves of the variables of a let, their values, and its body.
#[derive(Drop)]
pub struct LetParts {
    pub variables: Vec<u32>,
    pub values: Vec<Ref>,
    pub body: Ref,
}

/// The leaf of the head of an application, and the leaf itself where the term is one. A let has none.
pub(crate) fn head_of(terms: &mut Terms<'_>, r: Ref) -> Option<u32>
    requires { IsKnown terms.old.pass r }
    ensures application { IfSome result (λ k. (s : Table) (t : Term) → IsTable s → RefersTo s terms.old r t → IsAppliedLeaf s k (read.arguments_of t) t) }
    ensures variable { IfSome result (λ k. (s : Table) (x : Var) → RefersTo s terms.old r (variable x) → k ≡ r) }
    ensures let_term { IfNone result ((s : Table) (t : Term) → IsTable s → RefersTo s terms.old r t → IsLet t) }
    ensures same { terms.new ≡ terms.old }
{
    terms.head(r)
}

/// The arguments of an application.
pub fn arguments_of(alloc: Global, terms: &mut Terms<'_>, r: Ref) -> Result<Vec<Ref>, Memory>
    requires { IsKnown terms.old.pass r }
    ensures arguments { IfOk result (λ list. (s : Table) (t : Term) → RefersTo s terms.old r t → (IsLet t → ⊥) →
        ReferToAll s terms.old list.items (read.arguments_of t)) }
    ensures same { terms.new ≡ terms.old }
{
    let mut list = Vec::new(alloc);
    terms.arguments(r, &mut list)?;
    Ok(list)
}

/// The parts of a let.
pub fn let_parts(alloc: Global, terms: &mut Terms<'_>, r: Ref) -> Result<LetParts, Memory>
    requires { IsLetTerm terms.old r }
    ensures bindings { IfOk result (λ l. (s : Table) (bs : Bindings) (u : Term) → RefersTo s terms.old r (let_in bs u) →
        AreBindings s terms.old l.variables.items l.values.items bs) }
    ensures body { IfOk result (λ l. (s : Table) (bs : Bindings) (u : Term) → RefersTo s terms.old r (let_in bs u) → RefersTo s terms.old l.body u) }
    ensures one_each { IfOk result (λ l. length l.variables.items ≡ length l.values.items) }
    ensures same { terms.new ≡ terms.old }
{
    let mut variables = Vec::new(alloc);
    let mut values = Vec::new(alloc);
    let body = terms.let_body(r);
    terms.bindings(r, &mut variables, &mut values)?;
    Ok(LetParts {
        variables,
        values,
        body,
    })
}

/// The height of a term.
pub(crate) fn height_of(alloc: Global, terms: &mut Terms<'_>, r: Ref) -> Result<u32, Memory>
    requires { IsKnown terms.old.pass r }
    ensures height { IfOk result (λ h. (s : Table) (t : Term) → IsTable s → RefersTo s terms.old r t → h ≡ heights.height t) }
    ensures same { terms.new ≡ terms.old }
{
    terms.height(alloc, r)
}

/// Whether the leaf is that of a variable.
pub fn is_variable(symbols: &Symbols, leaf: u32) -> bool
    requires { leaf < length symbols.now.leaves }
    ensures yes { IsTrue result → (x : Var) × IsLeaf symbols.now leaf (variable_leaf x) }
    ensures no { result ≡ false → (x : Var) → IsLeaf symbols.now leaf (variable_leaf x) → ⊥ }
{
    matches!(symbols.kind(leaf), Kind::Var(_))
}
