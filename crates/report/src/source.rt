//! The two texts of a certificate.
ghost use Rattle.std.specs.Prelude.{◌≡◌};
ghost use Rattle.report.specs.Lines.{name_of_source};

use std::fmt;

/// Which of the two texts is meant.
#[derive(Clone, Copy, PartialEq, Eq, Debug)]
pub enum Source {
    Sheet,
    Rule,
}

impl Source {
    /// The word by which the lines speak of the text.
    pub fn name(self) -> &'static str
        ensures { result.now ≡ name_of_source self }
    {
        match self {
            Source::Sheet => "sheet",
            Source::Rule => "rule",
        }
    }
}

impl fmt::Display for Source {
    ghost use Rattle.std.specs.Prelude.{Some};
    ghost use Rattle.report.specs.Lines.{name_of_source};

    ghost output = { λ source. Some (name_of_source source) };

    fn fmt<W: fmt::Write>(&self, f: &mut fmt::Formatter<W>) -> fmt::Result {
        f.write_str(self.name())
    }
}
