// What is proved of the notebook, for every set of equations and every list of calls on a notebook that was empty at first.
// One function a theorem, with nothing to run: its contract makes the check ask for the theorem's proof, and its name is what a caller cites. The
// four members that `semantics` takes are written out, as a trait has them: one member for all four would stand in every other clause instead.
ghost use Rattle.equations.specs.Semantics.{semantics};
ghost use Rattle.equations.specs.Theorems.{RunsAnswer, ValuesAreLeast, NotebooksAreSolved, EditsRemoveWhatAsks, AsksEnd, AnswersAreAsNew};

use super::sets::Equations;
use lattice::Lattice;

// A run that is given what it asks for answers, and a value rises exactly if it becomes another.
pub fn runs_answer<V: Lattice, E: Equations<Value = V>>()
    ensures { RunsAnswer (semantics V.Lattice.kind E.Equations.meaning E.Equations.refusal E.Equations.touched) }
{}

// (a) Every value is the smallest possible.
pub fn values_are_least<V: Lattice, E: Equations<Value = V>>()
    ensures { ValuesAreLeast (semantics V.Lattice.kind E.Equations.meaning E.Equations.refusal E.Equations.touched) }
{}

// (b) A notebook is closed and solves its equations, and an ask keeps every earlier entry.
pub fn notebooks_are_solved<V: Lattice, E: Equations<Value = V>>()
    ensures { NotebooksAreSolved (semantics V.Lattice.kind E.Equations.meaning E.Equations.refusal E.Equations.touched) }
{}

// (c) An edit removes only what a chain of asks leads from, to a touched unknown.
pub fn edits_remove_what_asks<V: Lattice, E: Equations<Value = V>>()
    ensures { EditsRemoveWhatAsks (semantics V.Lattice.kind E.Equations.meaning E.Equations.refusal E.Equations.touched) }
{}

// (d) Every ask ends, with one result.
pub fn asks_end<V: Lattice, E: Equations<Value = V>>()
    ensures { AsksEnd (semantics V.Lattice.kind E.Equations.meaning E.Equations.refusal E.Equations.touched) }
{}

// An answer is what a newly made notebook would say.
pub fn answers_are_as_new<V: Lattice, E: Equations<Value = V>>()
    ensures { AnswersAreAsNew (semantics V.Lattice.kind E.Equations.meaning E.Equations.refusal E.Equations.touched) }
{}
