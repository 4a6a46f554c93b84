//! What is wrong with a text: which rule it breaks, at which byte, and in which layer of reading.
ghost use Rattle.std.specs.Prelude.{◌≡◌};
ghost use Rattle.hoa_tokens.specs.Numbers.{refusal_number, layer_number};
ghost use Rattle.hoa_tokens.specs.Faults.{layer_of, fault_at};

/// Why a text is refused. The number of a case is the one that is printed.
#[derive(Clone, Copy, PartialEq, Eq, Debug)]
pub enum Refusal {
    /// A byte that begins no token, or a quote that opens no name.
    BadByte = 11,
    /// A number above 9,999, or one with a needless leading 0.
    BadNumber = 12,
    /// A token that is not allowed there, or the text's end.
    Unexpected = 13,
    /// More than 64 states or 4 signals.
    TooMany = 14,
    /// A state or a signal that there is not.
    OutOfRange = 15,
    /// A state described twice or a name given twice.
    Repeated = 16,
    /// A 17th `(` or `!` open at once.
    TooDeep = 17,
    /// A text above 61,440 bytes.
    TooLong = 18,
    /// A file that cannot be read.
    Unreadable = 19,
}

/// The layer of reading in which a text breaks a rule.
#[derive(Clone, Copy, PartialEq, Eq, Debug)]
pub enum Layer {
    Bytes = 1,
    Grammar = 2,
    Meaning = 3,
}

/// The first thing that is wrong with a text.
#[derive(Clone, Copy, PartialEq, Eq, Debug)]
pub struct Fault {
    pub refusal: Refusal,
    /// The first byte of the token at fault, from 0, or the text's length at its end.
    pub place: usize,
    pub layer: Layer,
}

impl Refusal {
    /// The layer whose rule the text breaks.
    pub fn layer(self) -> Layer
        ensures { result ≡ layer_of self }
    {
        match self {
            Refusal::BadByte | Refusal::BadNumber | Refusal::TooLong | Refusal::Unreadable => {
                Layer::Bytes
            }
            Refusal::Unexpected | Refusal::TooDeep => Layer::Grammar,
            Refusal::TooMany | Refusal::OutOfRange | Refusal::Repeated => Layer::Meaning,
        }
    }

    /// The fault of a text that is refused for this at the place.
    pub fn at(self, place: usize) -> Fault
        ensures { result ≡ fault_at self place }
    {
        Fault {
            refusal: self,
            place,
            layer: self.layer(),
        }
    }
}

impl From<Refusal> for u8 {
    ghost from_gives = { λ refusal n. n ≡ refusal_number refusal };

    fn from(refusal: Refusal) -> u8 {
        refusal as u8
    }
}

impl From<Layer> for u8 {
    ghost from_gives = { λ layer n. n ≡ layer_number layer };

    fn from(layer: Layer) -> u8 {
        layer as u8
    }
}
