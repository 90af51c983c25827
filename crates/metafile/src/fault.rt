ghost use Rattle.std.specs.Prelude.{◌≡◌, Some};
ghost use Rattle.codes.specs.Refusals.{numbered};
ghost use Rattle.metafile.specs.Layers.{layer_word};
ghost use Rattle.metafile.specs.declared.fault.Layer.TheVariants.{File};

use codes::Refusal;
use std::fmt;

// What a refusal is about: the file and how records lie in it, or what one record asks for.
#[derive(Clone, Copy, PartialEq, Eq, Debug)]
pub enum Layer {
    File,
    Record,
}

impl fmt::Display for Layer {
    ghost output = { λ layer. Some (layer_word layer) };

    fn fmt<W: fmt::Write>(&self, f: &mut fmt::Formatter<W>) -> fmt::Result {
        f.write_str(match self {
            Self::File => "file",
            Self::Record => "record",
        })
    }
}

// Why a file, or the record at a place in it, cannot be read.
#[derive(Clone, Copy, PartialEq, Eq, Debug)]
pub struct FileFault {
    pub cause: Refusal,
    pub place: usize,
}

impl FileFault {
    // The number of its cause.
    pub fn number(self) -> u8
        ensures { result ≡ numbered self.cause }
    {
        self.cause.number()
    }

    pub fn layer(self) -> Layer
        ensures { result ≡ File }
    {
        Layer::File
    }
}
