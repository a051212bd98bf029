// The number that stands in a list for what a call finds, and for an entry of a part. No plainer as one `impl` for all that goes into u64: sizes, floats and codes do not.
ghost use Rattle.std.specs.Prelude.{◌≡◌, ℕ};

use graph::Code;

pub trait Number: Copy {
    ghost number: { Self → ℕ };

    fn number(self) -> u64
        ensures { result ≡ number self };
}

impl Number for u8 {
    ghost number = { λ x. x };

    fn number(self) -> u64 {
        u64::from(self)
    }
}

impl Number for u16 {
    ghost number = { λ x. x };

    fn number(self) -> u64 {
        u64::from(self)
    }
}

impl Number for usize {
    ghost number = { λ x. x };

    fn number(self) -> u64 {
        self as u64
    }
}

// The bits of a float stand for it. Those of a NaN are not read, and one number that no other float has stands for each.
impl Number for f32 {
    ghost use Rattle.std.specs.Prelude.{if◌then◌else◌};
    ghost use Rattle.std.specs.Float.Ieee.{is_nan, to_bits, binary32};

    ghost number = { λ x. if is_nan x then 2143289344 else to_bits binary32 x };

    fn number(self) -> u64 {
        if self.is_nan() {
            0x7FC0_0000
        } else {
            u64::from(self.to_bits())
        }
    }
}

// 1 for a word that satisfies all checks.
impl Number for bool {
    ghost use Rattle.std.specs.Prelude.{if◌then◌else◌};

    ghost number = { λ x. if x then 1 else 0 };

    fn number(self) -> u64 {
        u64::from(self)
    }
}

// The rank of a code.
impl Number for Code {
    ghost number = { λ code. code.rank };

    fn number(self) -> u64 {
        self.rank as u64
    }
}
