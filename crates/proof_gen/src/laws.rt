//! Laws of the texts. Each stands as the contract of a function that does nothing, so that the gate proves it.
ghost use Rattle.std.specs.Prelude.{◌≡◌, ◌==◌, ◌≤◌, ℕ, ◌+◌, ◌*◌, ◌++◌, [], ◌∷◌, count_by, length};
ghost use Rattle.std.specs.List.{slice_split};
ghost use Rattle.proof_gen.specs.Counting.{begins_command};
ghost use Rattle.proof_gen.specs.Texts.{problem_text, proof_lines, proof_text};

/// The proof of n links has 27 n + 3 commands with an index, which are the lines that begin an assume or a step: its other lines
/// are the four anchors of each link. These are the lines of its text: cut at its line ends it gives them, and nothing behind the
/// last one.
pub fn proofs_have_27_commands_a_link()
    ensures commands { (n : ℕ) → count_by begins_command (proof_lines n) ≡ 27 * n + 3 }
    ensures lines { (n : ℕ) → length (proof_lines n) ≡ 31 * n + 3 }
    ensures text { (n : ℕ) → n ≤ 50000 → slice_split (λ b. b == 10) (proof_text n) ≡ proof_lines n ++ [] ∷ [] }
{}

/// The texts of as many links as may be asked for are no longer than a file may be: at most 268,435,456 bytes.
pub fn texts_are_short()
    ensures problem { (n : ℕ) → n ≤ 50000 → length (problem_text n) ≤ 268435456 }
    ensures proof { (n : ℕ) → n ≤ 50000 → length (proof_text n) ≤ 268435456 }
{}
