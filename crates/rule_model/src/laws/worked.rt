//! A proof with a subproof, worked out: an assume and a step inside it, its closing step and a step behind it.

ghost use Rattle.std.specs.Prelude.{◌≡◌, ◌∷◌, [], Some, None, codes, map};
ghost use Rattle.rule_model.specs.Commands.{entries, lines_in};
ghost use Rattle.rule_model.specs.Reading.{id_at, clause_at, scope_at, closes_at, parent_at, last_inside_at};
ghost use Rattle.rule_model.specs.Scopes.{outermost, commands_in, subproofs_in};
ghost use Rattle.rule_model.specs.Truth.{open_assumes};
ghost use Rattle.rule_model.specs.Visibility.{visible};
ghost use Rattle.rule_model.specs.Worked.{worked};
ghost use Rattle.rule_model.specs.Writing.{add_command};

/// Four commands and one subproof. The assume has the index 0 and the scope 1, and the closing step the index 2 and
/// the scope 0.
pub fn commands_of_a_subproof()
    ensures commands { commands_in worked ≡ 4 }
    ensures subproofs { subproofs_in worked ≡ 1 }
    ensures scopes { map (λ e. e.scope) (entries worked) ≡ 1 ∷ 1 ∷ 0 ∷ 0 ∷ [] }
    ensures closes { map (λ e. e.closes) (entries worked) ≡ None ∷ None ∷ Some 1 ∷ None ∷ [] }
    ensures ids { id_at worked 1 ≡ codes "t1.t" }
    ensures clauses { clause_at worked 0 ≡ 5 ∷ [] }
{}

/// The scope 1 stands in the scope 0, and its last command is the step inside it; that of the scope 0 is the last step.
pub fn scopes_of_a_subproof()
    ensures parent { parent_at worked 1 ≡ Some 0 }
    ensures last { last_inside_at worked 1 ≡ Some 1 }
    ensures last_outside { last_inside_at worked 0 ≡ Some 3 }
    ensures sees { visible outermost worked ≡ 2 ∷ 3 ∷ [] }
{}

/// In the subproof its assume counts, and outside it none does.
pub fn assumes_of_a_subproof()
    ensures { map (λ l. open_assumes (add_command l.scope l.command).nesting (add_command l.scope l.command).items) (lines_in outermost worked)
        ≡ (5 ∷ []) ∷ (5 ∷ []) ∷ [] ∷ [] ∷ [] }
{}
