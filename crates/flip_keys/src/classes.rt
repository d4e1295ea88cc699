//! Classes of terms and of lists of terms, and their numbers.

ghost use Rattle.std.specs.Prelude.{◌≡◌, IfOk};
ghost use Rattle.flip_keys.specs.Classes.{side_class};
ghost use Rattle.sym_table.specs.Names.{PlacesItem};

use indexmap::IndexSet;
use pair_pool::{Memory, Ref};

/// What a term or a list of terms comes to, where numbers stand for its parts. What is equal up to flips is of one class.
#[derive(Clone, Copy, PartialEq, Eq, Hash)]
pub(crate) enum Class {
    /// What is equal to itself alone: a leaf, or a let.
    Alone(Ref),
    /// An equality of two terms, by the numbers of its sides, the lower one first.
    Equality(usize, usize),
    /// Any other application, by its head and the number of the list of its arguments.
    Application(Ref, usize),
    /// A list, by the number of its first term and that of the list behind it.
    Arguments(usize, usize),
}

/// The class of an equality of two terms that have these numbers.
pub(crate) fn sides(one: usize, other: usize) -> Class
    ensures { result ≡ side_class one other }
{
    if one <= other {
        Class::Equality(one, other)
    } else {
        Class::Equality(other, one)
    }
}

/// The number of a class: the one that it has, or the next one.
pub(crate) fn number(classes: &mut IndexSet<Class>, class: Class) -> Result<usize, Memory>
    ensures { IfOk result (λ k. PlacesItem classes.old.keys classes.new.keys k class) }
{
    let (number, _) = classes.insert_full(class)?;
    Ok(number)
}
