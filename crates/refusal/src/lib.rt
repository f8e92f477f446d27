// What every refusal of this repository has besides its cause: a number, and the layer whose check turned the input down.
#![tactic(auto)]

ghost use Rattle.std.specs.Prelude.{◌≡◌, Some};
ghost use Rattle.refusal.specs.Layers.{name};

use std::fmt;

pub mod numbered;

// The layers, from the text that comes in to the text that goes out.
#[derive(Clone, Copy, PartialEq, Eq, Debug)]
pub enum Layer {
    Input,
    Program,
    Notebook,
    Output,
}

impl Layer {
    // The layer's name, as refusals are printed and documented.
    pub fn name(self) -> &'static str
        ensures { result.now ≡ name self }
    {
        match self {
            Layer::Input => "input",
            Layer::Program => "program",
            Layer::Notebook => "notebook",
            Layer::Output => "output",
        }
    }
}

impl fmt::Display for Layer {
    ghost output = { λ layer. Some (name layer) };

    fn fmt<W: fmt::Write>(&self, f: &mut fmt::Formatter<W>) -> fmt::Result {
        f.write_str(self.name())
    }
}
