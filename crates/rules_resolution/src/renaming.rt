//! The same clauses with new names for their atoms.
ghost use Rattle.std.specs.Prelude.{◌≡◌, ◌+◌, ◌<◌, ◌≤◌, ◌^◌, length, vec_len, All};
ghost use Rattle.clause_chain.specs.Chaining.{clauses_of};
ghost use Rattle.rules_resolution.specs.Renaming.{all_literals, joined_clauses, renamed_atom, renamed_from, renamed_in};

use crate::literal::Lit;

/// How many literals the premises and the conclusion have together.
pub(crate) fn literal_count(premises: &[Vec<Lit>], goal: &[Lit]) -> u128
    requires premises { length premises.now < 2 ^ 32 }
    requires literals { All (λ clause. vec_len clause < 2 ^ 32) premises.now }
    ensures { result ≡ length (all_literals (clauses_of premises.now) goal.now) }
{
    let mut count = goal.len() as u128;
    for clause in premises {
        count += clause.len() as u128;
    }
    count
}

/// The literal with this name for its atom.
fn rename(literal: Lit, name: u32) -> Lit
    ensures { result ≡ renamed_atom literal name }
{
    match literal {
        Lit::Plain { negative, .. } => Lit::Plain {
            atom: name,
            negative,
        },
        Lit::Always => Lit::Always,
        Lit::Never => Lit::Never,
    }
}

/// Gives the literals of a clause the names from number `from` on.
pub(crate) fn rename_here(clause: &mut [Lit], names: &[u32], from: usize)
    requires names { from + length clause.old ≤ length names.now }
    ensures { clause.new ≡ renamed_from names.now from clause.old }
{
    for place in 0..clause.len() {
        clause[place] = rename(clause[place], names[from + place]);
    }
}

/// Gives the literals of the premises the names from number 0 on.
pub(crate) fn rename_all(premises: &mut [Vec<Lit>], names: &[u32])
    requires literals { All (λ clause. vec_len clause < 2 ^ 32) premises.old }
    requires names { length (joined_clauses (clauses_of premises.old)) ≤ length names.now }
    ensures literals { All (λ clause. vec_len clause < 2 ^ 32) premises.new }
    ensures renamed { clauses_of premises.new ≡ renamed_in names.now 0 (clauses_of premises.old) }
{
    let mut from = 0;
    for k in 0..premises.len() {
        let clause = premises[k].as_mut_slice();
        let len = clause.len();
        rename_here(clause, names, from);
        from += len;
    }
}
