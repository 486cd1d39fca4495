// What each op uses of a record's bytes.
ghost use Rattle.std.specs.Prelude.{◌≡◌, drop};
ghost use Rattle.table.specs.Records.{binding, silent, asking, form_of, fits, zeros};

// What an op uses of a record: whether it binds a slot, how many operand bytes it reads, below what its number stays.
#[derive(Clone, Copy, Drop)]
pub struct Form {
    binds: bool,
    operands: usize,
    limit: u64,
}

// No number is below its limit, so no record fits it; an `Option` would say the same twice.
const NO_OP: Form = Form {
    binds: false,
    operands: 0,
    limit: 0,
};

// Such a record binds a slot.
fn binding(operands: usize) -> Form
    ensures { result ≡ binding operands }
{
    Form {
        binds: true,
        operands,
        limit: 1,
    }
}

// Such a record binds none. Named as its definition is, as is `asking`, from which only its limit differs.
fn silent(operands: usize) -> Form
    ensures { result ≡ silent operands }
{
    Form {
        binds: false,
        operands,
        limit: 1,
    }
}

// A test's number is its two counts.
fn asking(operands: usize) -> Form
    ensures { result ≡ asking operands }
{
    Form {
        binds: false,
        operands,
        limit: 0x1_0000_0000,
    }
}

impl Form {
    pub fn of(op: u8) -> Form
        ensures { result ≡ form_of op }
    {
        // By number: this is where an op's byte gets its form.
        match op {
            1 | 2 | 4 | 5 => binding(1),
            3 => Form {
                binds: true,
                operands: 0,
                limit: 0x8000_0000,
            },
            6 | 7 | 9 => binding(2),
            8 => binding(3),
            10 => binding(6),
            11 | 13 => silent(6),
            12 | 15 => silent(1),
            14 => Form {
                binds: false,
                operands: 0,
                limit: 0x1_0000_0000,
            },
            16 => asking(1),
            17..=19 | 25 => asking(2),
            20..=22 => asking(4),
            23 | 24 => asking(3),
            _ => NO_OP,
        }
    }

    // Unused bytes are 0.
    pub fn fits(self, slot: u8, operands: &[u8], number: u32) -> bool
        ensures { result ≡ fits self slot operands.now number }
    {
        u64::from(number) < self.limit
            && (self.binds || slot == 0)
            && zeros_from(operands, self.operands)
    }
}

// Whether all bytes from a place on are 0.
pub fn zeros_from(bytes: &[u8], place: usize) -> bool
    ensures { result ≡ zeros (drop place bytes.now) }
{
    // By place: a chain over `skip` took up to twice the time on the few bytes of a record.
    for i in place..bytes.len() {
        if bytes[i] != 0 {
            return false;
        }
    }
    true
}
