//! Reading a problem (SMT-LIB 2.6, "Scripts" and "Commands").
ghost use Rattle.std.specs.Prelude.{◌≡◌, ◌≤◌, ◌<◌, ◌+◌, length, None, Err, All, IfOk};
ghost use Rattle.pair_pool.specs.Views.{IsKnown};
ghost use Rattle.sexpr.specs.declared.causes.Refusal.{Refusal};
ghost use Rattle.sym_table.specs.Table.{Table, Keeps};
ghost use Rattle.term_pool.specs.Views.{TermsView, KeepsTerms};
ghost use Rattle.term_pool.specs.Placing.{PlacesCellsOf, LacksCellOf};
ghost use Rattle.term_reader.specs.ProblemViews.{IsProblemOf, IsNewTable, IsCounted};
ghost use Rattle.problem_text.specs.Problems.{StandsForProblem, IsFirstFault};
ghost use Rattle.term_names.specs.declared.settings.ReadSettings.{ReadSettings};
ghost use Rattle.problem_text.specs.Scripts.{Script, empty_script};
ghost use Rattle.smtlib_reader.specs.Sessions.{IsSession, session_in};
ghost use Rattle.term_names.specs.declared.faults.ReadFault.TheVariants as fault;
ghost use Rattle.term_expansion.specs.SymbolsAndTerms.{both};

use crate::script_reading::read_commands;
use crate::session::Session;
use problem_text::laws::texts_have_one_reading;
use sexpr::{Lexer, form};
use std::alloc::Global;
use std::mem::replace;
use sym_table::Symbols;
use term_names::faults::ReadFault;
use term_names::names::Names;
use term_names::settings::ReadSettings;
use term_pool::Terms;
use term_reader::flags::Flags;
use term_reader::problem::Problem;
use term_reader::reader::Reader;

/// A problem of which nothing was read yet.
fn new_session(alloc: Global) -> Session
    ensures { (e : ReadSettings) (s : Table) (v : TermsView) → e.base ≡ None → IsNewTable s → IsSession (both s v) (session_in e result) empty_script }
{
    Session {
        reader: Reader::new(alloc),
        assertions: Vec::new(alloc),
        has_logic: false,
        is_checked: false,
        sorts: Vec::new(alloc),
        parameters: Vec::new(alloc),
    }
}

/// The problem that was read, which is taken out of the session.
fn problem_of(alloc: Global, session: &mut Session) -> Problem
    ensures { (e : ReadSettings) (s : Table) (v : TermsView) (sc : Script) → e.base ≡ None → IsSession (both s v) (session_in e session.old) sc →
        IsProblemOf s v result sc }
{
    let names = replace(&mut session.reader.names, Names::new(alloc));
    let assertions = replace(&mut session.assertions, Vec::new(alloc));
    Problem::new(names.into_own(), assertions)
}

/// Reads the text of a problem: what it stands for, or its first fault.
///
/// The table of symbols has to be new. Declared sorts and functions, numerals and variables are put into it, no more than
/// the text has bytes, and the terms into the pool. The first fault is one of form, or else the first one of the commands in
/// their order; inside a command its word, then its shape, then its sorts and terms as they stand. Refused besides when
/// out of memory, and where the pool had no room for a cell of a term that was read.
///
/// Takes time in proportion to the text, and for each use of a macro to the distinct cells of its body, and no stack that
/// grows with the text.
pub fn read_problem(
    alloc: Global,
    bytes: &[u8],
    flags: Flags,
    symbols: &mut Symbols,
    terms: &mut Terms<'_>,
) -> Result<Problem, ReadFault>
    requires short { length bytes.now ≤ 268435456 }
    requires new_symbols { IsNewTable symbols.old }
    ensures problem { IfOk result (λ p. (sc : Script) × StandsForProblem bytes.now flags.expand_lets sc × IsProblemOf symbols.new terms.new p sc) }
    ensures known { IfOk result (λ p. All (IsKnown terms.new.pass) p.assertions) }

    // A fault is the first one of the text, and where the text has a fault it is not read.
    ensures fault { (r : Refusal) → result ≡ Err (fault.Text r) → IsFirstFault bytes.now flags.expand_lets r }
    ensures refused { (r : Refusal) → IsFirstFault bytes.now flags.expand_lets r → IfOk result (λ _. ⊥) }

    // It places only cells of terms that are read, and is refused for lack of room for one.
    ensures placed { PlacesCellsOf symbols.new terms.old.pass terms.new.pass (IsCounted bytes.now flags.expand_lets) }
    ensures full { result ≡ Err fault.PoolFull → LacksCellOf symbols.new terms.new.pass (IsCounted bytes.now flags.expand_lets) }
    ensures few { length symbols.new.leaves ≤ length symbols.old.leaves + length bytes.now }
    ensures symbols { Keeps symbols.old symbols.new }
    ensures keeps { KeepsTerms terms.old terms.new }
{
    texts_have_one_reading();
    form(bytes)?;
    let mut lexer = Lexer::new(bytes);
    let mut nodes = Vec::new(alloc);
    let mut session = new_session(alloc);
    let settings = ReadSettings {
        alloc,
        replaces_lets: flags.expand_lets,
        base: None,
    };
    let read = read_commands(
        &settings,
        &mut lexer,
        &mut nodes,
        symbols,
        terms,
        &mut session,
    );
    // The session is given up by a call of its own: given up in parts, at the end of a scope, it is very dear to prove.
    match read {
        Ok(()) => {
            let problem = problem_of(alloc, &mut session);
            drop(session);
            Ok(problem)
        }
        Err(fault) => {
            drop(session);
            Err(fault)
        }
    }
}
