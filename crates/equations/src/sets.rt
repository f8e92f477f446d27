// Sets of equations.
ghost use Rattle.std.specs.Prelude.{◌≡◌, ℕ, ◌<◌, ◌≤◌, Bool, true, false, List, [], ◌∷◌, ◌++◌, is_some, None, Option};
ghost use Rattle.equations.specs.declared.Move.{Move};
ghost use Rattle.equations.specs.Systems.{Meaning, system};
ghost use Rattle.equations.specs.Rules.{Lawful};
ghost use Rattle.equations.specs.Edits.{Outcome};

use super::Move;
use lattice::Lattice;

pub trait Equations {
    type Value: Lattice;

    // The run of an unknown, part of the way through.
    type Run: Drop;

    // What an edit is told to change, and why it can be refused.
    type Change: Copy;

    type Fault: Copy;

    // How many unknowns there are, and the next move of each run.
    ghost meaning: { Self → Meaning Self.Value };

    // The run is that of the unknown, after these values were given to it.
    ghost stands: { Self → Self.Run → ℕ → List Self.Value → Type 0 };

    // Why a change is refused, if it is, and which unknowns it touches.
    ghost refusal: { Self → Self.Change → Option Self.Fault };

    ghost touched: { Self → Self.Change → ℕ → Bool };

    // What a change that is accepted makes of the equations.
    ghost changed: { Self → Self.Change → Self → Type 0 };

    // The number of unknowns.
    fn count(&self) -> usize
        ensures { result ≡ (meaning self.now).size };

    // Begins the run of x, and promises that the equations keep the rules, monotonicity among them. What is begun for an x that is no
    // unknown is the run of nothing.
    fn begin(&self, x: usize) -> Self::Run
        ensures stands { x < (meaning self.now).size → stands self.now result x [] }
        ensures lawful { Lawful (system Self.Value.Lattice.kind (meaning self.now)) };

    // The next move of a run, which stays where it is.
    fn next(&self, run: &mut Self::Run) -> Move<Self::Value>
        ensures { (x : ℕ) (given : List Self.Value) → stands self.now run.old x given → (result ≡ (meaning self.now).moves x given) × stands self.now run.new x given };

    // Gives the run a value for what it asks for.
    fn give(&self, run: &mut Self::Run, value: Self::Value)
        ensures { (x : ℕ) (given : List Self.Value) → stands self.now run.old x given → stands self.now run.new x (given ++ (value ∷ [])) };

    // Whether a change touches x.
    fn touches(&self, change: Self::Change, x: usize) -> bool
        ensures { result ≡ touched self.now change x };

    // Refuses the change, and then stays as it is, or makes it, and then the runs of what it does not touch stay as they are.
    fn edit(&mut self, change: Self::Change) -> Result<(), Self::Fault>
        ensures made { refusal self.old change ≡ None → changed self.old change self.new }
        ensures outcome { Outcome (meaning self.old) (meaning self.new) (self.new ≡ self.old) (touched self.old change) (refusal self.old change) result };

    ghost lawful: { (e : Self) → Lawful (system Self.Value.Lattice.kind (meaning e)) };

    ghost small: { (e : Self) → (1 ≤ (meaning e).size) × ((meaning e).size ≤ 512) };

    // A change that is refused touches no unknown.
    ghost harmless: { (e : Self) (change : Self.Change) (x : ℕ) → is_some (refusal e change) ≡ true → touched e change x ≡ false };
}
