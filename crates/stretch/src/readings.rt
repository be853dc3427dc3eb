// How a byte is read when it is held against another, or laid somewhere.
ghost use Rattle.std.specs.Prelude.{◌≡◌, ℕ};

pub trait Reading {
    ghost reads: { ℕ → ℕ };

    fn read(b: u8) -> u8
        ensures { result ≡ reads b };
}

pub struct AsGiven;

impl Reading for AsGiven {
    ghost reads = { λ b. b };

    fn read(b: u8) -> u8 {
        b
    }
}
