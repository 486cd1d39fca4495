// A refusal: its number, the layer that refuses, and the place that it names.
ghost use Rattle.std.specs.Prelude.{◌≡◌, Bool};
ghost use Rattle.table.specs.Faults.{layered, fault, number_of, required};

#[derive(Clone, Copy, Debug, PartialEq, Eq, Drop)]
pub enum Layer {
    // numbers below 20
    File = 0,
    // numbers below 50
    Rules = 1,
    // all others
    Run = 2,
}

// Why something is refused; the number of each.
#[derive(Clone, Copy, Debug, PartialEq, Eq, Drop)]
pub enum Refusal {
    // the bytes of a table
    Length = 1,
    Edition = 2,
    Counts = 3,
    Sections = 4,
    Structs = 5,
    Functions = 6,
    Types = 7,
    Entry = 8,
    // the rules
    Record = 20,
    Binding = 21,
    Operand = 22,
    Callee = 23,
    Kind = 24,
    Field = 25,
    Withheld = 26,
    Flow = 27,
    Block = 28,
    Leak = 29,
    Scratch = 30,
    // a memory
    Full = 50,
    Absent = 51,
    Capacity = 52,
    // a machine
    InUse = 60,
    NoObject = 63,
    NotRunning = 64,
    NoRoom = 65,
    Frames = 66,
    Threads = 67,
    List = 68,
    Unknown = 69,
    NoRecord = 70,
    NoOperand = 71,
    Sort = 72,
    NoPart = 73,
    Lost = 74,
}

// What a refusal names. `Nothing` is shown as 0.
#[derive(Clone, Copy, Debug, PartialEq, Eq, Drop)]
pub enum Place {
    Nothing,
    Byte(usize),
    Record { function: usize, index: usize },
    Thread(usize),
}

// That it carries its number, layer and place is a rule of the project; a number without a name may stand in one, too.
#[derive(Clone, Copy, Debug, PartialEq, Eq, Drop)]
pub struct Fault {
    pub number: u8,
    pub layer: Layer,
    pub place: Place,
}

// The layer that refuses with a number.
impl From<u8> for Layer {
    ghost from_gives = { λ number layer. layer ≡ layered number };

    fn from(number: u8) -> Layer {
        if number < 20 {
            Layer::File
        } else if number < 50 {
            Layer::Rules
        } else {
            Layer::Run
        }
    }
}

impl Refusal {
    pub fn number(self) -> u8
        ensures { result ≡ number_of self }
    {
        self as u8
    }

    // The refusal with the place that it names.
    pub fn at(self, place: Place) -> Fault
        ensures { result ≡ fault (number_of self) place }
    {
        Fault::new(self.number(), place)
    }
}

impl Fault {
    // Every refusal is made here, so that its layer follows from its number.
    pub fn new(number: u8, place: Place) -> Fault
        ensures { result ≡ fault number place }
    {
        Fault {
            number,
            layer: Layer::from(number),
            place,
        }
    }
}

// Goes on where a condition holds, and is refused where it does not.
pub fn require<E: Drop>(holds: bool, refusal: E) -> Result<(), E>
    ensures { result ≡ required holds refusal }
{
    if holds { Ok(()) } else { Err(refusal) }
}
