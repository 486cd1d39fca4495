// How a refusal is printed.
ghost use Rattle.std.specs.Prelude.{Some};
ghost use Rattle.table.specs.Shown.{layer_text, fault_text};

use super::fault::{Fault, Layer, Place};
use std::fmt;

impl fmt::Display for Layer {
    ghost output = { λ x. Some (layer_text x) };

    fn fmt<W: fmt::Write>(&self, f: &mut fmt::Formatter<W>) -> fmt::Result {
        match self {
            Layer::File => f.write_str("file"),
            Layer::Rules => f.write_str("rules"),
            Layer::Run => f.write_str("run"),
        }
    }
}

impl fmt::Display for Fault {
    ghost output = { λ x. Some (fault_text x) };

    fn fmt<W: fmt::Write>(&self, f: &mut fmt::Formatter<W>) -> fmt::Result {
        let number = self.number;
        let layer = self.layer;
        match self.place {
            Place::Nothing => write!(f, "refused {number} {layer}"),
            Place::Byte(byte) => write!(f, "refused {number} {layer} byte {byte}"),
            Place::Record { function, index } => write!(
                f,
                "refused {number} {layer} function {function} record {index}"
            ),
            Place::Thread(thread) => write!(f, "refused {number} {layer} thread {thread}"),
        }
    }
}
