//! Numbers of the widths that columns lend.

ghost use Rattle.std.specs.Prelude.{◌≡◌, ℕ};
ghost use Rattle.nt_column.specs.Bits.{bit_of};

/// A number of some width.
pub trait Word: Copy {
    ghost number: { Self → ℕ };

    /// The number.
    fn number(self) -> u64
        ensures { result ≡ number self };
}

impl Word for bool {
    ghost number = { bit_of };

    fn number(self) -> u64 {
        u64::from(self)
    }
}

impl Word for u8 {
    ghost number = { λ n. n };

    fn number(self) -> u64 {
        u64::from(self)
    }
}

impl Word for u16 {
    ghost number = { λ n. n };

    fn number(self) -> u64 {
        u64::from(self)
    }
}

impl Word for u32 {
    ghost number = { λ n. n };

    fn number(self) -> u64 {
        u64::from(self)
    }
}

impl Word for u64 {
    ghost number = { λ n. n };

    fn number(self) -> u64 {
        self
    }
}
