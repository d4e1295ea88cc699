//! Weights and linear forms of terms (Alethe specification, "List of rules": la_generic).

ghost use Rattle.std.specs.Prelude.{◌≡◌, ◌+◌, ◌<◌, ◌≤◌, ◌^◌, pos, neg_ℤ, unsigned_abs, length, slice_index_or, replicate, take, drop, OnOk, IfOk, min};
ghost use Rattle.term_model.specs.Terms.{Term};
ghost use Rattle.term_pool.specs.Views.{RefersTo, IsTerm};
ghost use Rattle.rule_model.specs.Weights.{weight};
ghost use Rattle.linear_forms.specs.Factors.{added};
ghost use Rattle.linear_forms.specs.Forms.{IsToldWeight, IsLinear, IsDifference, TellsOneForm};
ghost use Rattle.linear_forms.specs.Roots.{IsRootNumber, IsRootPair, IsExpanded, IsTold, single_factors, pair_factors, told_weight};

use crate::graph::Graph;
use crate::infos::{LIMIT, capped_sum};
use crate::memory::Item;
use crate::nodes::Coefficient;
use crate::sweep::sweep;
use pair_pool::{Memory, Ref};
use std::alloc::Global;
use sym_table::Symbols;
use term_pool::Terms;

/// What a form has beside its coefficients.
#[derive(Clone, Copy)]
pub struct Numbers {
    /// The constant.
    pub constant: i128,
    /// The weight, which the absolute values of the constant and of the coefficients add up to at most.
    pub weight: u128,
}

/// A linear form: a constant, the opaque terms whose coefficients are not 0, each of them once, and the weight.
#[derive(Drop)]
pub struct Linear {
    /// The constant.
    pub constant: i128,
    /// The opaque terms with their coefficients, in no order.
    pub coefs: Vec<Coefficient>,
    /// The weight.
    pub weight: u128,
}

/// Whether two terms have one linear form.
#[derive(Clone, Copy)]
pub enum OneForm {
    /// They have.
    Yes,
    /// They have not.
    No,
    /// Their weights add up to more than 2^127 - 1.
    TooWide,
}

/// Scratch memory for weights and forms, kept from call to call. What it holds counts for nothing between calls.
#[derive(Drop)]
pub struct LinearForms {
    alloc: Global,
    graph: Graph,
    way: Vec<Item>,
    factors: Vec<i128>,
    found: Vec<Coefficient>,
}

/// Two nodes.
#[derive(Clone, Copy)]
struct Pair {
    first: usize,
    second: usize,
}

/// A weight, where it is not too wide.
fn within(weight: u128) -> Option<u128>
    ensures { result ≡ told_weight weight }
{
    if weight < LIMIT { Some(weight) } else { None }
}

/// Adds to a factor.
fn add(factors: &mut Vec<i128>, i: usize, n: i128)
    requires there { i < length factors.old.items }
    requires room { unsigned_abs (slice_index_or factors.old.items i (pos 0)) + unsigned_abs n < 2 ^ 127 }
    ensures { factors.new.items ≡ added factors.old.items i n }
{
    factors[i] += n;
}

/// So many factors, all 0.
fn clear(factors: &mut Vec<i128>, count: usize) -> Result<(), Memory>
    ensures { OnOk result (factors.new.items ≡ replicate count (pos 0)) }
{
    factors.clear();
    factors.resize(count, 0)?;
    Ok(())
}

/// The factors of one node, once.
fn start(factors: &mut Vec<i128>, count: usize, k: usize) -> Result<(), Memory>
    requires { k < count }
    ensures { OnOk result (factors.new.items ≡ single_factors count k) }
{
    clear(factors, count)?;
    add(factors, k, 1);
    Ok(())
}

/// The factors of a node less another.
fn start_pair(factors: &mut Vec<i128>, count: usize, pair: Pair) -> Result<(), Memory>
    requires first { pair.first < count }
    requires second { pair.second < count }
    ensures { OnOk result (factors.new.items ≡ pair_factors count pair.first pair.second) }
{
    start(factors, count, pair.first)?;
    add(factors, pair.second, -1);
    Ok(())
}

/// Whether nothing is left of a form.
fn tell(constant: i128, found: &[Coefficient]) -> OneForm
    ensures { IsTold constant found.now result }
{
    if constant != 0 {
        return OneForm::No;
    }
    match found {
        [] => OneForm::Yes,
        _ => OneForm::No,
    }
}

impl LinearForms {
    /// Memory that holds nothing yet.
    pub fn new(alloc: Global) -> LinearForms {
        LinearForms {
            alloc,
            graph: Graph::new(alloc),
            way: Vec::new(alloc),
            factors: Vec::new(alloc),
            found: Vec::new(alloc),
        }
    }

    /// The node of a term.
    fn root(&mut self, symbols: &Symbols, terms: &mut Terms<'_>, r: Ref) -> Result<usize, Memory>
        requires { IsTerm symbols.now terms.old r }
        ensures root { IfOk result (λ k. IsRootNumber symbols.now terms.old self.new.graph r k) }
        ensures same { terms.new ≡ terms.old }
    {
        self.graph.clear(self.alloc);
        self.graph.number(symbols, terms, &mut self.way, r)
    }

    /// The nodes of two terms.
    fn root_pair(
        &mut self,
        symbols: &Symbols,
        terms: &mut Terms<'_>,
        one: Ref,
        other: Ref,
    ) -> Result<Pair, Memory>
        requires one { IsTerm symbols.now terms.old one }
        requires other { IsTerm symbols.now terms.old other }
        ensures roots { IfOk result (λ p. IsRootPair symbols.now terms.old self.new.graph one other p) }
        ensures same { terms.new ≡ terms.old }
    {
        let first = self.root(symbols, terms, one)?;
        let second = self.graph.number(symbols, terms, &mut self.way, other)?;
        Ok(Pair { first, second })
    }

    /// The weight of a term: None exactly where it is over 2^127 - 1.
    ///
    /// Takes time and memory in proportion to the distinct cells of the term that count in its form, and no stack. It places
    /// no cell, and refuses only when out of memory.
    pub fn weight(
        &mut self,
        symbols: &Symbols,
        terms: &mut Terms<'_>,
        r: Ref,
    ) -> Result<Option<u128>, Memory>
        requires { IsTerm symbols.now terms.old r }
        ensures weight { IfOk result (λ w. (t : Term) → RefersTo symbols.now terms.old r t → IsToldWeight w (weight t)) }
        ensures same { terms.new ≡ terms.old }
    {
        symbols.leaves_differ();
        terms.one_to_one();
        terms.parts_of_trees();
        let k = self.root(symbols, terms, r)?;
        Ok(within(self.graph.infos[k].sum))
    }

    /// The form of a term, whose coefficients are those found.
    fn expand(
        &mut self,
        symbols: &Symbols,
        terms: &mut Terms<'_>,
        r: Ref,
    ) -> Result<Option<Numbers>, Memory>
        requires { IsTerm symbols.now terms.old r }
        ensures expanded { IfOk result (λ n. (t : Term) → RefersTo symbols.now terms.old r t → IsExpanded symbols.now terms.old t n self.new.found.items) }
        ensures same { terms.new ≡ terms.old }
    {
        symbols.leaves_differ();
        terms.one_to_one();
        terms.parts_of_trees();
        let k = self.root(symbols, terms, r)?;
        let Some(weight) = within(self.graph.infos[k].sum) else {
            return Ok(None);
        };
        start(&mut self.factors, self.graph.count(), k)?;
        self.found.clear();
        let constant = sweep(&self.graph.nodes, &mut self.factors, &mut self.found)?;
        Ok(Some(Numbers { constant, weight }))
    }

    /// The linear form of a term: None exactly where its weight is over 2^127 - 1.
    ///
    /// Takes time and memory in proportion to the distinct cells of the term that count in its form, and no stack. It places
    /// no cell, and refuses only when out of memory.
    pub fn linear(
        &mut self,
        symbols: &Symbols,
        terms: &mut Terms<'_>,
        r: Ref,
    ) -> Result<Option<Linear>, Memory>
        requires { IsTerm symbols.now terms.old r }
        ensures linear { IfOk result (λ l. (t : Term) → RefersTo symbols.now terms.old r t → IsLinear symbols.now terms.old t l) }
        ensures same { terms.new ≡ terms.old }
    {
        let Some(numbers) = self.expand(symbols, terms, r)? else {
            return Ok(None);
        };
        let coefs = Vec::from_slice(self.alloc, &self.found)?;
        Ok(Some(Linear {
            constant: numbers.constant,
            coefs,
            weight: numbers.weight,
        }))
    }

    /// The form of a term less that of another, whose coefficients are those found.
    fn subtract(
        &mut self,
        symbols: &Symbols,
        terms: &mut Terms<'_>,
        one: Ref,
        other: Ref,
    ) -> Result<Option<Numbers>, Memory>
        requires one { IsTerm symbols.now terms.old one }
        requires other { IsTerm symbols.now terms.old other }
        ensures difference { IfOk result (λ n. (t u : Term) → RefersTo symbols.now terms.old one t → RefersTo symbols.now terms.old other u →
            IsDifference symbols.now terms.old t u n self.new.found.items) }
        ensures same { terms.new ≡ terms.old }
    {
        symbols.leaves_differ();
        terms.one_to_one();
        terms.parts_of_trees();
        let pair = self.root_pair(symbols, terms, one, other)?;
        let sum = capped_sum(
            self.graph.infos[pair.first].sum,
            self.graph.infos[pair.second].sum,
        );
        let Some(weight) = within(sum) else {
            return Ok(None);
        };
        start_pair(&mut self.factors, self.graph.count(), pair)?;
        self.found.clear();
        let constant = sweep(&self.graph.nodes, &mut self.factors, &mut self.found)?;
        Ok(Some(Numbers { constant, weight }))
    }

    /// The linear form of one term less that of another, whose coefficients are added to a list: None exactly where the two
    /// weights add up to more than 2^127 - 1, and then nothing is added.
    ///
    /// Takes time and memory in proportion to the distinct cells of both terms that count in their forms, and no stack. It
    /// places no cell, and refuses only when out of memory.
    pub fn difference(
        &mut self,
        symbols: &Symbols,
        terms: &mut Terms<'_>,
        one: Ref,
        other: Ref,
        into: &mut Vec<Coefficient>,
    ) -> Result<Option<Numbers>, Memory>
        requires one { IsTerm symbols.now terms.old one }
        requires other { IsTerm symbols.now terms.old other }
        ensures kept { OnOk result (take (length into.old.items) into.new.items ≡ into.old.items) }
        ensures difference { IfOk result (λ n. (t u : Term) → RefersTo symbols.now terms.old one t → RefersTo symbols.now terms.old other u →
            IsDifference symbols.now terms.old t u n (drop (length into.old.items) into.new.items)) }
        ensures same { terms.new ≡ terms.old }
    {
        let Some(numbers) = self.subtract(symbols, terms, one, other)? else {
            return Ok(None);
        };
        into.extend_from_slice(&self.found)?;
        Ok(Some(numbers))
    }

    /// Whether two terms have one linear form, or their weights add up to more than 2^127 - 1.
    ///
    /// Takes time and memory in proportion to the distinct cells of both terms that count in their forms, and no stack. It
    /// places no cell, and refuses only when out of memory.
    pub fn have_one_form(
        &mut self,
        symbols: &Symbols,
        terms: &mut Terms<'_>,
        one: Ref,
        other: Ref,
    ) -> Result<OneForm, Memory>
        requires one { IsTerm symbols.now terms.old one }
        requires other { IsTerm symbols.now terms.old other }
        ensures form { IfOk result (λ f. (t u : Term) → RefersTo symbols.now terms.old one t → RefersTo symbols.now terms.old other u → TellsOneForm t u f) }
        ensures same { terms.new ≡ terms.old }
    {
        let Some(numbers) = self.subtract(symbols, terms, one, other)? else {
            return Ok(OneForm::TooWide);
        };
        Ok(tell(numbers.constant, &self.found))
    }
}
