//! Applications over the forms of their arguments, with their sides in order.

ghost use Rattle.std.specs.Prelude.{◌≡◌, ◌<◌, ◌^◌, [], List, All, IsTrue, IfOk, OnErr};
ghost use Rattle.flip_steps.specs.Refilling.{AreArgumentForms, IsApplicationOf, IsInOrderOf, IsOrdered, IsRefilled, IsRefillingOf, AreStages};
ghost use Rattle.flip_steps.specs.Stages.{IsMadeAt};
ghost use Rattle.pair_pool.specs.Views.{IsKnown};
ghost use Rattle.sym_table.specs.Table.{Table};
ghost use Rattle.term_model.specs.Terms.{Term};
ghost use Rattle.term_pool.specs.Building.{IsAppliedLeaf};
ghost use Rattle.term_pool.specs.Placing.{LacksCellOf, LacksRoomFor, PlacesCellsOf, PlacesTerm};
ghost use Rattle.term_pool.specs.Views.{KeepsTerms, RefersTo, ReferToAll};

use pair_pool::{PoolFull, Ref};
use sym_table::Symbols;
use term_model::Op;
use term_pool::{Terms, references_stay};

/// An application, its head over the forms of its arguments, and its form.
#[derive(Clone, Copy)]
pub(crate) struct Stages {
    pub(crate) whole: Ref,
    pub(crate) refilled: Ref,
    pub(crate) form: Ref,
}

/// The application of a head to arguments.
fn apply(terms: &mut Terms<'_>, head: u32, args: &[Ref]) -> Result<Ref, PoolFull>
    requires head { head < 2 ^ 30 }
    requires args { All (IsKnown terms.old.pass) args.now }
    ensures term { (s : Table) (ts : List Term) (t : Term) → ReferToAll s terms.old args.now ts → IsAppliedLeaf s head ts t →
        IfOk result (λ r. RefersTo s terms.new r t) }
    ensures placed { (s : Table) (ts : List Term) (t : Term) → ReferToAll s terms.old args.now ts → IsAppliedLeaf s head ts t →
        PlacesTerm s terms.old.pass terms.new.pass t }
    ensures full { OnErr result ((s : Table) (ts : List Term) (t : Term) → ReferToAll s terms.old args.now ts → IsAppliedLeaf s head ts t →
        LacksRoomFor s terms.new.pass t) }
    ensures keeps { KeepsTerms terms.old terms.new }
{
    let made = terms.app(head, args)?;
    Ok(made)
}

/// An application over the forms of its arguments. Where these are its arguments, it is the application itself.
fn refill(
    symbols: &Symbols,
    terms: &mut Terms<'_>,
    whole: Ref,
    head: u32,
    forms: &[Ref],
    is_same: bool,
) -> Result<Ref, PoolFull>
    requires forms { AreArgumentForms symbols.now terms.old whole head forms.now }
    requires same { IsTrue is_same → IsRefilled symbols.now terms.old whole head forms.now whole }
    ensures refilled { IfOk result (IsRefilled symbols.now terms.new whole head forms.now) }
    ensures placed { PlacesCellsOf symbols.now terms.old.pass terms.new.pass (IsRefillingOf symbols.now terms.new whole) }
    ensures full { OnErr result (LacksCellOf symbols.now terms.new.pass (IsRefillingOf symbols.now terms.new whole)) }
    ensures keeps { KeepsTerms terms.old terms.new }
{
    symbols.leaves_differ();
    if is_same {
        return Ok(whole);
    }
    let made = apply(terms, head, forms)?;
    Ok(made)
}

/// An application with the sides in order, where it is an equality of two terms: the lower reference first.
fn order(
    symbols: &Symbols,
    terms: &mut Terms<'_>,
    whole: Ref,
    head: u32,
    args: &[Ref],
) -> Result<Ref, PoolFull>
    requires { IsApplicationOf symbols.now terms.old head args.now whole }
    ensures ordered { IfOk result (IsOrdered symbols.now terms.new whole) }
    ensures placed { PlacesCellsOf symbols.now terms.old.pass terms.new.pass (IsInOrderOf symbols.now terms.new whole) }
    ensures full { OnErr result (LacksCellOf symbols.now terms.new.pass (IsInOrderOf symbols.now terms.new whole)) }
    ensures keeps { KeepsTerms terms.old terms.new }
{
    symbols.leaves_differ();
    if head != symbols.operator(Op::Equal) || args.len() != 2 {
        return Ok(whole);
    }
    let (first, second) = (args[0], args[1]);
    if first.number() <= second.number() {
        return Ok(whole);
    }
    let made = apply(terms, head, &[second, first])?;
    Ok(made)
}

/// The form of an application, by the forms of its arguments, and whether these are its arguments.
pub(crate) fn reach(
    symbols: &Symbols,
    terms: &mut Terms<'_>,
    whole: Ref,
    head: u32,
    forms: &[Ref],
    is_same: bool,
) -> Result<Stages, PoolFull>
    requires forms { AreArgumentForms symbols.now terms.old whole head forms.now }
    requires same { IsTrue is_same → IsRefilled symbols.now terms.old whole head forms.now whole }
    ensures whole { IfOk result (λ x. x.whole ≡ whole) }
    ensures stages { IfOk result (AreStages symbols.now terms.new head forms.now) }
    ensures placed { PlacesCellsOf symbols.now terms.old.pass terms.new.pass (IsMadeAt symbols.now terms.new whole) }
    ensures full { OnErr result (LacksCellOf symbols.now terms.new.pass (IsMadeAt symbols.now terms.new whole)) }
    ensures keeps { KeepsTerms terms.old terms.new }
{
    symbols.leaves_differ();
    let refilled = refill(symbols, terms, whole, head, forms, is_same)?;
    let ordered = order(symbols, terms, refilled, head, forms);
    terms.one_to_one();
    let form = ordered?;
    Ok(Stages {
        whole,
        refilled,
        form,
    })
}
