// Types and fields, as their bytes give them.
ghost use Rattle.std.specs.Prelude.{◌≡◌};
ghost use Rattle.table.specs.Types.{kind_of, mode_of};

// What a slot or a field of a type may hold.
#[derive(Clone, Copy, Debug, Default, PartialEq, Eq, Drop)]
pub enum Kind {
    #[default]
    Number = 0,
    Alias = 1,
    Owned = 2,
    Pristine = 3,
}

// How a field may be written.
#[derive(Clone, Copy, Debug, Default, PartialEq, Eq, Drop)]
pub enum Mode {
    #[default]
    Var = 0,
    Val = 1,
    Once = 2,
    Spec = 3,
}

// The four bytes of a type. `barred` is 0 in every type that is in use; bit f of `withheld` withholds field f.
#[derive(Clone, Copy, Debug, Default, PartialEq, Eq, Drop)]
pub struct Ty {
    pub kind: Kind,
    pub strukt: u8,
    pub barred: u8,
    pub withheld: u8,
}

#[derive(Clone, Copy, Debug, Default, PartialEq, Eq, Drop)]
pub struct Field {
    pub mode: Mode,
    pub ty: Ty,
}

impl Ty {
    // A number, which also stands for a type that is not there.
    pub const NUMBER: Ty = Ty {
        kind: Kind::Number,
        strukt: 0,
        barred: 0,
        withheld: 0,
    };
}

impl Field {
    // What stands for a field that is not there.
    pub const NONE: Field = Field {
        mode: Mode::Var,
        ty: Ty::NUMBER,
    };
}

// The kind of a type's first byte; `open` has refused a byte above 3.
impl From<u8> for Kind {
    ghost from_gives = { λ byte kind. kind ≡ kind_of byte };

    fn from(byte: u8) -> Kind {
        match byte {
            0 => Kind::Number,
            1 => Kind::Alias,
            2 => Kind::Owned,
            _ => Kind::Pristine,
        }
    }
}

// The mode of a field's first byte; `open` has refused a byte above 3.
impl From<u8> for Mode {
    ghost from_gives = { λ byte mode. mode ≡ mode_of byte };

    fn from(byte: u8) -> Mode {
        match byte {
            0 => Mode::Var,
            1 => Mode::Val,
            2 => Mode::Once,
            _ => Mode::Spec,
        }
    }
}
