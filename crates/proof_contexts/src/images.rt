//! The images of the variables that anchors bind.

ghost use Rattle.std.specs.Prelude.{◌≡◌, ◌∷◌, [], List, IfErr, IfOk};
ghost use Rattle.std.specs.List.{AllZip};
ghost use Rattle.contexts.specs.Kept.{IsRight, all_bindings, frames_of};
ghost use Rattle.contexts.specs.PutIn.{AreReplacementBy, StandForReplacement};
ghost use Rattle.term_pool.specs.Placing.{LacksRoomFor, PlacesTerm, LacksCellOf, PlacesCellsOf};
ghost use Rattle.term_pool.specs.Bindings.{IsBindingOf};
ghost use Rattle.rule_model.specs.Contexts.{put_in_each};
ghost use Rattle.rule_model.specs.Replacement.{Replacement};
ghost use Rattle.rule_model.specs.Substitution.{put_in};
ghost use Rattle.term_model.specs.Terms.{Var, Term};
ghost use Rattle.term_pool.specs.Views.{KeepsTerms};
ghost use Rattle.term_pool.specs.declared.stop.TermStop.TheVariants as TermStop;
ghost use Rattle.proof_contexts.specs.Images.{IsImageIn};
ghost use Rattle.proof_contexts.specs.Bindings.{BindTerms};

use contexts::{Substitution, substitutions_stay};
use pair_pool::Ref;
use std::alloc::Global;
use sym_table::Symbols;
use term_pool::{TermStop, Terms};

/// The image of a binding of an anchor: the term with what the outer anchors put in.
fn image_of(
    outer: &mut Substitution,
    binding: (u32, Ref),
    symbols: &Symbols,
    terms: &mut Terms<'_>,
) -> Result<(u32, Ref), TermStop>
    requires binding { BindTerms symbols.now terms.old (binding ∷ []) }
    requires outer { AreReplacementBy symbols.now terms.old (all_bindings outer.old) }
    requires right { IsRight terms.old outer.old }
    ensures image { IfOk result (λ i. (q : Replacement) (b : Var × Term) → StandForReplacement symbols.now terms.old (all_bindings outer.old) q →
        IsBindingOf symbols.now terms.old binding b →
        IsBindingOf symbols.now terms.new i (b.0, put_in q b.1)) }
    ensures placed { (q : Replacement) (b : Var × Term) → StandForReplacement symbols.now terms.old (all_bindings outer.old) q →
        IsBindingOf symbols.now terms.old binding b →
        PlacesTerm symbols.now terms.old.pass terms.new.pass (put_in q b.1) }
    ensures full { IfErr result (λ e. e ≡ TermStop.PoolFull → (q : Replacement) (b : Var × Term) →
        StandForReplacement symbols.now terms.old (all_bindings outer.old) q → IsBindingOf symbols.now terms.old binding b →
        LacksRoomFor symbols.now terms.new.pass (put_in q b.1)) }
    ensures right { IsRight terms.new outer.new }
    ensures same { frames_of outer.new ≡ frames_of outer.old }
    ensures keeps { KeepsTerms terms.old terms.new }
{
    let term = outer.put_in(symbols, terms, binding.1)?;
    Ok((binding.0, term))
}

/// The images of the variables that an anchor binds, in order.
pub(crate) fn images_of(
    alloc: Global,
    outer: &mut Substitution,
    anchor: &[(u32, Ref)],
    symbols: &Symbols,
    terms: &mut Terms<'_>,
) -> Result<Vec<(u32, Ref)>, TermStop>
    requires anchor { BindTerms symbols.now terms.old anchor.now }
    requires outer { AreReplacementBy symbols.now terms.old (all_bindings outer.old) }
    requires right { IsRight terms.old outer.old }
    ensures images { IfOk result (λ list. (q : Replacement) (bound : List (Var × Term)) →
        StandForReplacement symbols.now terms.old (all_bindings outer.old) q → AllZip (IsBindingOf symbols.now terms.old) anchor.now bound →
        AllZip (IsBindingOf symbols.now terms.new) list.items (put_in_each q bound)) }
    ensures placed { (q : Replacement) (bound : List (Var × Term)) → StandForReplacement symbols.now terms.old (all_bindings outer.old) q →
        AllZip (IsBindingOf symbols.now terms.old) anchor.now bound →
        PlacesCellsOf symbols.now terms.old.pass terms.new.pass (IsImageIn q bound) }
    ensures full { IfErr result (λ e. e ≡ TermStop.PoolFull → (q : Replacement) (bound : List (Var × Term)) →
        StandForReplacement symbols.now terms.old (all_bindings outer.old) q → AllZip (IsBindingOf symbols.now terms.old) anchor.now bound →
        LacksCellOf symbols.now terms.new.pass (IsImageIn q bound)) }
    ensures right { IsRight terms.new outer.new }
    ensures same { frames_of outer.new ≡ frames_of outer.old }
    ensures keeps { KeepsTerms terms.old terms.new }
{
    substitutions_stay();
    let mut list = Vec::new(alloc);
    'bindings: for binding in anchor {
        let image = image_of(outer, *binding, symbols, terms)?;
        list.push(image)?;
    }
    Ok(list)
}
