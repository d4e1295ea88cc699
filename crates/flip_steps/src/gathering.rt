//! The forms of the arguments of an application.

ghost use Rattle.std.specs.Prelude.{◌≡◌, ◌++◌, [], List, All, map, flat_map, option_to_list, IsTrue, IfOk, OnOk};
ghost use Rattle.flip_steps.specs.Memory.{AreForms};
ghost use Rattle.flip_steps.specs.Remembering.{AreArgumentsSettled, IsApplicationAt, IsGatheredFor, IsSettled, form_in, links_in};
ghost use Rattle.proof_store.specs.AddedSteps.{AddedStep};

use crate::forms::Forms;
use crate::parts::{arguments_of, head_of};
use equality_steps::Site;
use pair_pool::{Memory, Ref};
use proof_store::Link;
use std::alloc::Global;
use term_pool::Terms;

/// The head of an application, the forms of its arguments in order, and the links that say of those which differ from their forms that
/// they are equal to them.
#[derive(Drop)]
pub(crate) struct Gathered {
    pub(crate) head: u32,
    pub(crate) forms: Vec<Ref>,
    pub(crate) links: Vec<Link>,
}

impl Gathered {
    /// Whether no term differs from its form.
    pub(crate) fn is_same(&self) -> bool
        ensures { IsTrue result → self.now.links.items ≡ [] }
    {
        self.links.is_empty()
    }
}

/// Adds a link to others, where there is one.
fn add_link(links: &mut Vec<Link>, link: Option<Link>) -> Result<(), Memory>
    ensures { OnOk result (links.new.items ≡ links.old.items ++ option_to_list link) }
{
    if let Some(link) = link {
        links.push(link)?;
    }
    Ok(())
}

/// What is known of the arguments of an application of this head.
fn gather(alloc: Global, forms: &Forms, head: u32, args: &[Ref]) -> Result<Gathered, Memory>
    requires { All (IsSettled forms.now) args.now }
    ensures head { IfOk result (λ g. g.head ≡ head) }
    ensures forms { IfOk result (λ g. g.forms.items ≡ map (form_in forms.now) args.now) }
    ensures links { IfOk result (λ g. g.links.items ≡ flat_map (links_in forms.now) args.now) }
{
    let mut list = Vec::new(alloc);
    let mut links = Vec::new(alloc);
    'each: for arg in args {
        let formed = forms.known(*arg);
        list.push(formed.form)?;
        add_link(&mut links, formed.link)?;
    }
    Ok(Gathered {
        head,
        forms: list,
        links,
    })
}

/// The head of an application, and what is known of its arguments.
pub(crate) fn gather_for(
    at: &Site<'_>,
    terms: &mut Terms<'_>,
    forms: &Forms,
    r: Ref,
) -> Result<Gathered, Memory>
    requires application { IsApplicationAt at.now terms.old r }
    requires arguments { AreArgumentsSettled at.now.symbols.now terms.old forms.now r }
    ensures gathered { IfOk result (λ g. (steps : List AddedStep) → AreForms at.now terms.old steps forms.now →
        IsGatheredFor at.now terms.old steps r g.head g.forms.items g.links.items) }
    ensures same { terms.new ≡ terms.old }
{
    at.symbols.leaves_differ();
    terms.one_to_one();
    terms.parts_of_trees();
    let head = head_of(terms, r).unwrap();
    let args = arguments_of(at.alloc, terms, r)?;
    let gathered = gather(at.alloc, forms, head, &args)?;
    Ok(gathered)
}
